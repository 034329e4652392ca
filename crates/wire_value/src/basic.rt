//! Values of basic types, read at a place.

ghost use Rattle.std.specs.Prelude.{◌≡◌, ◌≢◌};
ghost use Rattle.wire_value.specs.Types.{byte, boolean, int16, uint16, int32, uint32, int64, uint64, double, unix_fd, string, object_path, signature, fixed, textual};
ghost use Rattle.wire_value.specs.Reading.{basic_at, leaf_at};
ghost use Rattle.wire_value.specs.Gives.{GivesValue, at};
ghost use Rattle.wire_value.specs.View.{view};

use crate::error::ReadError;
use crate::parts::{path_of, sign_of, str_of, text_of, u8_of, u16_of, u32_of, u64_of};
use crate::place::Place;
use crate::types::is_signature;
use crate::value::Value;
use std::alloc::Global;
use updater_text::Text;

fn byte_value<'a>(little: bool, place: Place<'a>) -> Result<(Value, Place<'a>), ReadError>
    ensures { GivesValue result (basic_at little (fixed byte) (at place.entry)) }
{
    let (number, rest) = u8_of(little, place)?;
    Ok((Value::Byte(number), rest))
}

#[tactic(auto, using(crate::proofs::Numbers::bit_back))]
fn flag_value<'a>(little: bool, place: Place<'a>) -> Result<(Value, Place<'a>), ReadError>
    ensures { GivesValue result (basic_at little (fixed boolean) (at place.entry)) }
{
    let (number, rest) = u32_of(little, place)?;
    if number > 1 {
        return Err(ReadError::Malformed);
    }
    Ok((Value::Flag(number == 1), rest))
}

#[tactic(auto, using(crate::proofs::Numbers::back_16))]
fn i16_value<'a>(little: bool, place: Place<'a>) -> Result<(Value, Place<'a>), ReadError>
    ensures { GivesValue result (basic_at little (fixed int16) (at place.entry)) }
{
    let (number, rest) = u16_of(little, place)?;
    Ok((Value::I16(number.cast_signed()), rest))
}

fn u16_value<'a>(little: bool, place: Place<'a>) -> Result<(Value, Place<'a>), ReadError>
    ensures { GivesValue result (basic_at little (fixed uint16) (at place.entry)) }
{
    let (number, rest) = u16_of(little, place)?;
    Ok((Value::U16(number), rest))
}

#[tactic(auto, using(crate::proofs::Numbers::back_32))]
fn i32_value<'a>(little: bool, place: Place<'a>) -> Result<(Value, Place<'a>), ReadError>
    ensures { GivesValue result (basic_at little (fixed int32) (at place.entry)) }
{
    let (number, rest) = u32_of(little, place)?;
    Ok((Value::I32(number.cast_signed()), rest))
}

fn u32_value<'a>(little: bool, place: Place<'a>) -> Result<(Value, Place<'a>), ReadError>
    ensures { GivesValue result (basic_at little (fixed uint32) (at place.entry)) }
{
    let (number, rest) = u32_of(little, place)?;
    Ok((Value::U32(number), rest))
}

#[tactic(auto, using(crate::proofs::Numbers::back_64))]
fn i64_value<'a>(little: bool, place: Place<'a>) -> Result<(Value, Place<'a>), ReadError>
    ensures { GivesValue result (basic_at little (fixed int64) (at place.entry)) }
{
    let (number, rest) = u64_of(little, place)?;
    Ok((Value::I64(number.cast_signed()), rest))
}

fn u64_value<'a>(little: bool, place: Place<'a>) -> Result<(Value, Place<'a>), ReadError>
    ensures { GivesValue result (basic_at little (fixed uint64) (at place.entry)) }
{
    let (number, rest) = u64_of(little, place)?;
    Ok((Value::U64(number), rest))
}

#[tactic(auto, using(crate::proofs::Numbers::double_back))]
fn double_value<'a>(little: bool, place: Place<'a>) -> Result<(Value, Place<'a>), ReadError>
    ensures { GivesValue result (basic_at little (fixed double) (at place.entry)) }
{
    let (number, rest) = u64_of(little, place)?;
    Ok((Value::Double(number.to_le_bytes()), rest))
}

fn fd_value<'a>(little: bool, place: Place<'a>) -> Result<(Value, Place<'a>), ReadError>
    ensures { GivesValue result (basic_at little (fixed unix_fd) (at place.entry)) }
{
    let (number, rest) = u32_of(little, place)?;
    Ok((Value::Fd(number), rest))
}

// A number of a type, by the letter of the type.
#[tactic(auto, unfolding(crate::specs::Reading::leaf_at, crate::specs::Reading::basic_of))]
fn number_value<'a>(
    little: bool,
    letter: u8,
    place: Place<'a>,
) -> Result<(Value, Place<'a>), ReadError>
    requires no_text { (letter ≢ 115) × (letter ≢ 111) × (letter ≢ 103) }
    ensures { GivesValue result (leaf_at little letter (at place.entry)) }
{
    match letter {
        b'y' => byte_value(little, place),
        b'b' => flag_value(little, place),
        b'n' => i16_value(little, place),
        b'q' => u16_value(little, place),
        b'i' => i32_value(little, place),
        b'u' => u32_value(little, place),
        b'x' => i64_value(little, place),
        b't' => u64_value(little, place),
        b'd' => double_value(little, place),
        b'h' => fd_value(little, place),
        _ => Err(ReadError::Malformed),
    }
}

fn string_value<'a>(
    alloc: Global,
    little: bool,
    place: Place<'a>,
) -> Result<(Value, Place<'a>), ReadError>
    ensures { GivesValue result (basic_at little (textual string) (at place.entry)) }
{
    let (text, rest) = str_of(little, place)?;
    let text = Text::new(alloc, text)?;
    Ok((Value::Str(text), rest))
}

fn path_value<'a>(
    alloc: Global,
    little: bool,
    place: Place<'a>,
) -> Result<(Value, Place<'a>), ReadError>
    ensures { GivesValue result (basic_at little (textual object_path) (at place.entry)) }
{
    let (text, rest) = path_of(little, place)?;
    let text = Text::new(alloc, text)?;
    Ok((Value::Path(text), rest))
}

#[tactic(auto, using(crate::proofs::Ascii::signature_text))]
fn signature_value<'a>(
    alloc: Global,
    little: bool,
    place: Place<'a>,
) -> Result<(Value, Place<'a>), ReadError>
    ensures { GivesValue result (basic_at little (textual signature) (at place.entry)) }
{
    let (bytes, rest) = sign_of(place)?;
    if !is_signature(bytes) {
        return Err(ReadError::Malformed);
    }
    let Some(text) = text_of(bytes) else {
        return Err(ReadError::Malformed);
    };
    let text = Text::new(alloc, text)?;
    Ok((Value::Sig(text), rest))
}

/// The value of a basic type, by the letter of the type.
#[tactic(auto, unfolding(crate::specs::Reading::leaf_at, crate::specs::Reading::basic_of))]
pub fn leaf_of<'a>(
    alloc: Global,
    little: bool,
    letter: u8,
    place: Place<'a>,
) -> Result<(Value, Place<'a>), ReadError>
    ensures { GivesValue result (leaf_at little letter (at place.entry)) }
{
    match letter {
        b's' => string_value(alloc, little, place),
        b'o' => path_value(alloc, little, place),
        b'g' => signature_value(alloc, little, place),
        _ => number_value(little, letter, place),
    }
}
