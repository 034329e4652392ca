ghost use Rattle.std.specs.Prelude.{◌≡◌, IfOk};
ghost use Rattle.manifest.specs.Reads.{manifest_content};
ghost use Rattle.mark_report.specs.Info as spec;

use crate::readable::write_readable;
use crate::shell::write_shell;
use manifest::Manifest;
use std::alloc::Global;
use updater_text::{Form, NoMemory};

/// What a manifest says, as text: of the bundle, and of each of its images in file order.
pub fn info_text(alloc: Global, manifest: &Manifest, form: Form) -> Result<Vec<u8>, NoMemory>
    ensures { IfOk result (λ text. text.items ≡ spec.info_text form (manifest_content manifest.now)) }
{
    let mut text = Vec::new(alloc);
    match form {
        Form::Readable => write_readable(alloc, &mut text, manifest)?,
        Form::Shell => write_shell(alloc, &mut text, manifest)?,
    }
    Ok(text)
}
