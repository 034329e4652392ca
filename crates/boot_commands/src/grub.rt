ghost use Rattle.std.specs.Prelude.{◌≡◌, IfOk};
ghost use Rattle.boot_commands.specs.Grub as spec;

use crate::lists::{one, push_two};
use crate::order::{order_text, put_first, words_at};
use crate::texts::setting_of;
use crate::{Command, Mark, Setting};
use boot_model::Vars;
use std::alloc::Global;
use updater_text::{Items, NoMemory, Text};

/// What is read before a name is marked.
pub fn looks(alloc: Global, file: &Text, mark: Mark) -> Result<Items<Command>, NoMemory>
    ensures { IfOk result (λ commands. commands ≡ spec.looks file.now mark) }
{
    match mark {
        Mark::Bad | Mark::Good => Ok(Items::new(alloc)),
        Mark::Primary => readings(alloc, file),
    }
}

/// What reads all variables.
pub fn readings(alloc: Global, file: &Text) -> Result<Items<Command>, NoMemory>
    ensures { IfOk result (λ commands. commands ≡ spec.readings file.now) }
{
    let file = file.copy(alloc)?;
    one(alloc, Command::ListVariables { file })
}

/// What is written to mark a name.
pub fn plan(
    alloc: Global,
    file: &Text,
    names: &[Text],
    mark: Mark,
    name: &str,
    read: &Vars,
) -> Result<Items<Command>, NoMemory>
    ensures { IfOk result (λ commands. commands ≡ spec.plan file.now names.now mark name.now read.now) }
{
    let file = file.copy(alloc)?;
    let settings = settings_of(alloc, names, mark, name, read)?;
    one(alloc, Command::SetVariables { file, settings })
}

fn settings_of(
    alloc: Global,
    names: &[Text],
    mark: Mark,
    name: &str,
    read: &Vars,
) -> Result<Items<Setting>, NoMemory>
    ensures { IfOk result (λ settings. settings ≡ spec.settings_of names.now mark name.now read.now) }
{
    match mark {
        Mark::Bad => marks(alloc, "0", name),
        Mark::Good => marks(alloc, "1", name),
        Mark::Primary => {
            let order = order_setting(alloc, names, name, read)?;
            let mut settings = marks(alloc, "1", name)?;
            settings.push(order)?;
            Ok(settings)
        }
    }
}

// Whether the name works, and that it is not being tried.
fn marks(alloc: Global, works: &str, name: &str) -> Result<Items<Setting>, NoMemory>
    ensures { IfOk result (λ settings. settings ≡ spec.marks works.now name.now) }
{
    let works = Text::new(alloc, works)?;
    let ok = setting_of(alloc, "", name, "_OK", works)?;
    let tried = Text::new(alloc, "0")?;
    let tried = setting_of(alloc, "", name, "_TRY", tried)?;
    let mut settings = Items::new(alloc);
    push_two(&mut settings, ok, tried)?;
    Ok(settings)
}

fn order_setting(
    alloc: Global,
    names: &[Text],
    name: &str,
    read: &Vars,
) -> Result<Setting, NoMemory>
    ensures { IfOk result (λ s. s ≡ spec.order_setting names.now name.now read.now) }
{
    let words = words_at(alloc, read, "ORDER")?;
    let order = put_first(alloc, names, name, words.as_slice())?;
    let value = order_text(alloc, order.as_slice())?;
    let name = Text::new(alloc, "ORDER")?;
    Ok(Setting { name, value })
}
