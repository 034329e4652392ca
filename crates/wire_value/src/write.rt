//! Values written as the bytes of a message.

ghost use Rattle.std.specs.Prelude.{◌≡◌, ◌++◌, ◌<◌, ◌^◌, length, OnOk, IfOk};
ghost use Rattle.wire_value.specs.Plain.{sigs};
ghost use Rattle.wire_value.specs.Spelling.{spell, spells, IsValue, AreValues};
ghost use Rattle.wire_value.specs.Sizes.{Adds, ends, end_all};
ghost use Rattle.wire_value.specs.View.{view, views};

use crate::sizes::put_types;
use crate::value::Value;
use crate::writing::{put, put_all};
use std::alloc::Global;
use updater_text::NoMemory;

/// Adds the spelling of a value behind the bytes of a message so far, in the byte order that
/// `little` says. The conditions are that the grammar spells it there, and that it ends within
/// 2^32 bytes; `end_of_value` tells both. Out of memory, a part of it may have been added.
pub fn write_value(out: &mut Vec<u8>, little: bool, value: &Value) -> Result<(), NoMemory>
    requires valid { IsValue little (length out.old.items) (view value.now) }
    requires fits { ends (length out.old.items) (view value.now) < 2 ^ 32 }
    ensures { Adds result out.old.items out.new.items (λ n. spell little n (view value.now)) }
{
    put(out, little, value)?;
    Ok(())
}

/// Adds the spellings of values, one after the other, as a body has them. `end_of_values` tells
/// both conditions. Out of memory, a part of them may have been added.
#[tactic(auto, using(crate::proofs::Ends::each_value))]
pub fn write_values(out: &mut Vec<u8>, little: bool, values: &[Value]) -> Result<(), NoMemory>
    requires valid { AreValues little (length out.old.items) (views values.now) }
    requires fits { end_all (length out.old.items) (views values.now) < 2 ^ 32 }
    ensures { Adds result out.old.items out.new.items (λ n. spells little n (views values.now)) }
{
    put_all(out, little, values)?;
    Ok(())
}

/// The types of values, as the signature of a body has them.
pub fn signature_of(alloc: Global, values: &[Value]) -> Result<Vec<u8>, NoMemory>
    ensures { IfOk result (λ s. s.items ≡ sigs (views values.now)) }
{
    let mut signature = Vec::new(alloc);
    put_types(&mut signature, values)?;
    Ok(signature)
}
