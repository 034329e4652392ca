//! The parts of a value as bytes, added to those of a message.

ghost use Rattle.std.specs.Prelude.{◌<◌, ◌≤◌, ◌^◌, true, length};
ghost use Rattle.wire_value.specs.Types.{string, signature};
ghost use Rattle.wire_value.specs.Sizes.{Adds, padded};
ghost use Rattle.wire_value.specs.Spelling.{zeros, gap, word, text_spelling};

use crate::parts::gap_before;
use byteorder::{BigEndian, ByteOrder, LittleEndian};
use std::alloc::AllocError;

/// Adds zeros up to the next multiple of an alignment. Out of memory, a part may have been added,
/// as by each call here.
#[tactic(auto, using(crate::proofs::Growing::zeros_more))]
pub fn put_gap(out: &mut Vec<u8>, alignment: usize) -> Result<(), AllocError>
    requires some { 0 < alignment }
    requires small { alignment ≤ 8 }
    ensures { Adds result out.old.items out.new.items (λ n. zeros (gap alignment n)) }
{
    for _ in 0..gap_before(alignment, out.len()) {
        out.push(0)?;
    }
    Ok(())
}

#[tactic(auto, using(crate::proofs::Growing::word_8))]
fn put_bare_8(out: &mut Vec<u8>, little: bool, number: u8) -> Result<(), AllocError>
    ensures { Adds result out.old.items out.new.items (λ n. word little 1 number) }
{
    out.push(number)?;
    Ok(())
}

/// Adds a number of one byte.
pub fn put_u8(out: &mut Vec<u8>, little: bool, number: u8) -> Result<(), AllocError>
    ensures { Adds result out.old.items out.new.items (padded little 1 number) }
{
    put_gap(out, 1)?;
    put_bare_8(out, little, number)
}

// Adds a number, lowest or highest byte first.
#[tactic(auto, unfolding(crate::specs::Spelling::word))]
fn put_bare_16(out: &mut Vec<u8>, little: bool, number: u16) -> Result<(), AllocError>
    ensures { Adds result out.old.items out.new.items (λ n. word little 2 number) }
{
    let mut bytes = [0; 2];
    if little {
        LittleEndian::write_u16(&mut bytes, number);
    } else {
        BigEndian::write_u16(&mut bytes, number);
    }
    out.extend_from_slice(&bytes)?;
    Ok(())
}

/// Adds a number of two bytes behind its padding, lowest byte first where `little`.
pub fn put_u16(out: &mut Vec<u8>, little: bool, number: u16) -> Result<(), AllocError>
    ensures { Adds result out.old.items out.new.items (padded little 2 number) }
{
    put_gap(out, 2)?;
    put_bare_16(out, little, number)
}

// Adds a number, lowest or highest byte first.
#[tactic(auto, unfolding(crate::specs::Spelling::word))]
fn put_bare_32(out: &mut Vec<u8>, little: bool, number: u32) -> Result<(), AllocError>
    ensures { Adds result out.old.items out.new.items (λ n. word little 4 number) }
{
    let mut bytes = [0; 4];
    if little {
        LittleEndian::write_u32(&mut bytes, number);
    } else {
        BigEndian::write_u32(&mut bytes, number);
    }
    out.extend_from_slice(&bytes)?;
    Ok(())
}

/// The same of four bytes.
pub fn put_u32(out: &mut Vec<u8>, little: bool, number: u32) -> Result<(), AllocError>
    ensures { Adds result out.old.items out.new.items (padded little 4 number) }
{
    put_gap(out, 4)?;
    put_bare_32(out, little, number)
}

// Adds a number, lowest or highest byte first.
#[tactic(auto, unfolding(crate::specs::Spelling::word))]
fn put_bare_64(out: &mut Vec<u8>, little: bool, number: u64) -> Result<(), AllocError>
    ensures { Adds result out.old.items out.new.items (λ n. word little 8 number) }
{
    let mut bytes = [0; 8];
    if little {
        LittleEndian::write_u64(&mut bytes, number);
    } else {
        BigEndian::write_u64(&mut bytes, number);
    }
    out.extend_from_slice(&bytes)?;
    Ok(())
}

/// The same of eight bytes.
pub fn put_u64(out: &mut Vec<u8>, little: bool, number: u64) -> Result<(), AllocError>
    ensures { Adds result out.old.items out.new.items (padded little 8 number) }
{
    put_gap(out, 8)?;
    put_bare_64(out, little, number)
}

/// Adds a string or an object path: its length, its bytes and a NUL.
#[tactic(auto, using(std::proofs::lemmas::List::append_assoc))]
pub fn put_text(out: &mut Vec<u8>, little: bool, text: &[u8]) -> Result<(), AllocError>
    requires { length text.now < 2 ^ 32 }
    ensures { Adds result out.old.items out.new.items (λ n. text_spelling little n string text.now) }
{
    put_u32(out, little, text.len() as u32)?;
    out.extend_from_slice(text)?;
    out.push(0)?;
    Ok(())
}

/// Adds a signature: its length in one byte, its bytes and a NUL.
#[tactic(auto, using(std::proofs::lemmas::List::append_assoc))]
pub fn put_signature(out: &mut Vec<u8>, text: &[u8]) -> Result<(), AllocError>
    requires { length text.now ≤ 255 }
    ensures { Adds result out.old.items out.new.items (λ n. text_spelling true n signature text.now) }
{
    out.push(text.len() as u8)?;
    out.extend_from_slice(text)?;
    out.push(0)?;
    Ok(())
}
