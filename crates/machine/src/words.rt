ghost use Rattle.std.specs.Prelude.{◌≡◌, ◌∷◌, IfOk};

use crate::Child;
use std::alloc::Global;
use updater_text::{Items, NoMemory, Text};

/// The words that run a child: the name of its program, and its arguments.
pub fn words_of(alloc: Global, child: &Child) -> Result<Items<Text>, NoMemory>
    ensures { IfOk result (λ words. words ≡ child.now.program ∷ child.now.args) }
{
    let mut words = Items::new(alloc);
    words.push(child.program.copy(alloc)?)?;
    for arg in child.args.as_slice() {
        words.push(arg.copy(alloc)?)?;
    }
    Ok(words)
}
