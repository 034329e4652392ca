ghost use Rattle.std.specs.Prelude.{◌≡◌, ◌&&◌, find};
ghost use Rattle.std.specs.Option.{option_copied};
ghost use Rattle.boot_state.specs.Orders as orders;
ghost use Rattle.boot_state.specs.States.{good, primary, primary_at};

use crate::named::{has_name, place_of};
use crate::order::is_blank;
use crate::{barebox, custom, efi, grub, uboot};
use boot_model::{BootKind, Vars};
use updater_text::Text;

// Whether the boot loader may boot a name.
fn is_good(kind: &BootKind, vars: &Vars, names: &[Text], name: &[u8]) -> bool
    ensures { result ≡ good kind.now vars.now names.now name.now }
{
    match kind {
        BootKind::Grub { .. } => grub::is_good(vars, name),
        BootKind::Uboot { .. } => uboot::is_good(vars, name),
        BootKind::Barebox { .. } => barebox::is_good(vars, name),
        BootKind::Efi { .. } => efi::is_good(vars, name),
        BootKind::Custom { .. } => custom::is_good(vars, name),
        BootKind::Noop => true,
    }
}

/// Whether the boot loader may boot a name, by its variables. A count that is missing, or is no
/// number, counts as 0. GRUB: `NAME_OK` is 1 and `NAME_TRY` is 0. U-Boot: `BOOT_NAME_LEFT` is above
/// 0, and the name is a word of `BOOT_ORDER`, whose words stand between blanks. barebox:
/// `bootstate.NAME.priority` and `bootstate.NAME.remaining_attempts` are above 0. EFI: `BootOrder`
/// has a number whose entry has the name as its label. A program of the system's own: `state.NAME`
/// is not `bad`. Without a boot loader each name is good. None of them looks at the other `names`. It
/// takes no memory.
pub fn good_of(kind: &BootKind, vars: &Vars, names: &[Text], name: &str) -> bool
    ensures { result ≡ good kind.now vars.now names.now name.now }
{
    is_good(kind, vars, names, name.as_bytes())
}

fn is_good_name(kind: &BootKind, vars: &Vars, names: &[Text], word: &[u8]) -> bool
    ensures { result ≡ (orders.has_word names.now word.now && good kind.now vars.now names.now word.now) }
{
    has_name(names, word) && is_good(kind, vars, names, word)
}

// The first word of an order that is a good name.
fn first_good<'a>(kind: &BootKind, vars: &Vars, names: &[Text], order: &'a [u8]) -> Option<&'a [u8]>
    ensures { option_copied result ≡ find (λ word. orders.has_word names.now word && good kind.now vars.now names.now word) (orders.words_between orders.is_blank order.entry.now) }
{
    order
        .split(|byte| is_blank(*byte))
        .filter(|word| !word.is_empty())
        .find(|word| is_good_name(kind, vars, names, word))
}

// The one of the names that the boot loader boots next.
fn primary_name<'a>(kind: &BootKind, vars: &'a Vars, names: &'a [Text]) -> Option<&'a [u8]>
    ensures { option_copied result ≡ primary kind.now vars.entry.now names.entry.now }
{
    match kind {
        BootKind::Grub { .. } => first_good(kind, vars, names, vars.get("ORDER")?.as_bytes()),
        BootKind::Uboot { .. } => first_good(kind, vars, names, vars.get("BOOT_ORDER")?.as_bytes()),
        BootKind::Barebox { .. } => barebox::primary(vars, names),
        BootKind::Efi { .. } => efi::primary(vars, names),
        BootKind::Custom { .. } => custom::primary(vars, names),
        BootKind::Noop => None,
    }
}

/// The place of the name that the boot loader boots next, by its variables. GRUB and U-Boot: the
/// first word of `ORDER` or of `BOOT_ORDER` that is a good name. barebox: the good name of the
/// highest priority, of equals the first. EFI: the name of the entry of `BootNext`, and where that is
/// missing or has none, the first in `BootOrder` whose entry has one. A program of the system's own:
/// the value of `primary`, where it is a good name. It takes no memory.
pub fn primary_of(kind: &BootKind, vars: &Vars, names: &[Text]) -> Option<usize>
    ensures { result ≡ primary_at kind.now vars.now names.now }
{
    let name = primary_name(kind, vars, names)?;
    place_of(names, name)
}
