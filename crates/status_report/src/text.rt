ghost use Rattle.std.specs.Prelude.{◌≡◌, IfOk};
ghost use Rattle.system_conf.specs.Reads.{system_configuration};
ghost use Rattle.status_report.specs.Texts as spec;

use crate::StatusView;
use crate::readable::write_readable;
use crate::shell::write_shell;
use std::alloc::Global;
use system_conf::System;
use updater_text::{Form, NoMemory};

/// What there is to tell of the slots, as text. For a reader, what the status file has of each slot
/// follows where `detailed` says so.
pub fn status_text(
    alloc: Global,
    system: &System,
    view: &StatusView,
    form: Form,
    detailed: bool,
) -> Result<Vec<u8>, NoMemory>
    ensures { IfOk result (λ text. text.items ≡ spec.status_text (system_configuration system.now) view.now form detailed) }
{
    let mut text = Vec::new(alloc);
    match form {
        Form::Readable => write_readable(alloc, &mut text, system, view, detailed)?,
        Form::Shell => write_shell(alloc, &mut text, system, view)?,
    }
    Ok(text)
}
