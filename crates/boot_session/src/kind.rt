ghost use Rattle.std.specs.Prelude.{◌≡◌, IfOk};
ghost use Rattle.boot_session.specs.Kinds as spec;

use boot_model::BootKind;
use std::alloc::Global;
use updater_text::{NoMemory, Text};

/// The words of a line, with a tab between each two.
pub fn words_of(alloc: Global, line: &str) -> Result<Vec<Text>, NoMemory>
    ensures { IfOk result (λ words. words.items ≡ spec.words_of line.now) }
{
    let mut words = Vec::new(alloc);
    for word in line.split('\t') {
        let word = Text::new(alloc, word)?;
        words.push(word)?;
    }
    Ok(words)
}

/// The boot loader that a line names.
pub fn kind_of(alloc: Global, line: &str) -> Result<Option<BootKind>, NoMemory>
    ensures { IfOk result (λ kind. kind ≡ spec.kind_of (spec.words_of line.now)) }
{
    let words = words_of(alloc, line)?;
    match words.as_slice() {
        [word] => Ok(bare_kind(word.as_str())),
        [word, place] => kind_with(alloc, word.as_str(), place),
        _ => Ok(None),
    }
}

// The counts of attempts and the way of the next boot matter to no program.
fn bare_kind(word: &str) -> Option<BootKind>
    ensures { result ≡ spec.bare_kind word.now }
{
    match word {
        "uboot" => Some(BootKind::Uboot {
            attempts: 3,
            primary_attempts: 3,
        }),
        "barebox" => Some(BootKind::Barebox {
            state: None,
            attempts: 3,
            primary_attempts: 3,
        }),
        "efi" => Some(BootKind::Efi { use_next: true }),
        "noop" => Some(BootKind::Noop),
        _ => None,
    }
}

fn kind_with(alloc: Global, word: &str, place: &Text) -> Result<Option<BootKind>, NoMemory>
    ensures { IfOk result (λ kind. kind ≡ spec.kind_with word.now place.now) }
{
    let place = place.copy(alloc)?;
    Ok(match word {
        "grub" => Some(BootKind::Grub { file: place }),
        "custom" => Some(BootKind::Custom { program: place }),
        _ => None,
    })
}
