ghost use Rattle.std.specs.Prelude.{◌≡◌, ◌==◌, IfOk};
ghost use Rattle.std.specs.List.{slice_split};
ghost use Rattle.keyfile.specs.Items.{items_of};

use std::alloc::Global;
use updater_text::{NoMemory, Text};

// The pieces of a text between semicolons.
fn pieces(alloc: Global, text: &str) -> Result<Vec<Text>, NoMemory>
    ensures { IfOk result (λ pieces. pieces.items ≡ slice_split (λ b. b == 59) text.now) }
{
    let mut pieces = Vec::new(alloc);
    for piece in text.split(';') {
        let piece = Text::new(alloc, piece)?;
        pieces.push(piece)?;
    }
    Ok(pieces)
}

/// The items of a list value, which stand between semicolons. An empty last one is left out.
pub fn items(alloc: Global, text: &str) -> Result<Vec<Text>, NoMemory>
    ensures { IfOk result (λ items. items.items ≡ items_of text.now) }
{
    let mut items = pieces(alloc, text)?;
    let Some(last) = items.pop() else {
        return Ok(items);
    };
    if last.as_bytes().is_empty() {
        return Ok(items);
    }
    items.push(last)?;
    Ok(items)
}
