//! Messages as bytes.

ghost use Rattle.std.specs.Prelude.{◌≡◌, [], ◌++◌, ◌<◌, ◌≤◌, ◌^◌, true, length, OnOk, IfOk, IfSome};
ghost use Rattle.wire_value.specs.Types.{string, object_path, signature};
ghost use Rattle.wire_value.specs.Sizes.{Adds};
ghost use Rattle.dbus_wire.specs.Fields.{if_any};
ghost use Rattle.dbus_wire.specs.Checking.{are_fields};
ghost use Rattle.dbus_wire.specs.InOrder.{words_field, number_field, fields_end, IsSpelledIn, SpellsInOrder};
ghost use Rattle.dbus_wire.specs.MessageView.{fields_of, plain};
ghost use Rattle.dbus_wire.specs.Writing as spec;
ghost use Rattle.dbus_wire.specs.Writing.{PutsField};

use crate::message::Message;
use crate::valid::Layout;
use std::alloc::{AllocError, Global};
use updater_text::{NoMemory, Text};
use wire_value::parts::gap_before;
use wire_value::put::{put_gap, put_signature, put_text, put_u32};
use wire_value::write_values;

// Adds the beginning of a field: its padding, its code and the type of its value.
#[tactic(auto, using(std::proofs::lemmas::List::append_assoc))]
fn put_code(out: &mut Vec<u8>, code: u8, letter: u8) -> Result<(), AllocError>
    ensures { Adds result out.old.items out.new.items (spec.code_text code letter) }
{
    put_gap(out, 8)?;
    out.push(code)?;
    out.push(1)?;
    out.push(letter)?;
    out.push(0)?;
    Ok(())
}

// Adds the path, where it is there.
#[tactic(auto, using(crate::proofs::WriteSteps::path_written))]
fn put_path(out: &mut Vec<u8>, little: bool, field: &Option<Text>) -> Result<(), AllocError>
    requires { IfSome field.now (λ t. length t < 2 ^ 32) }
    ensures { PutsField little result out.old out.new (words_field 1 object_path field.now) }
{
    match field {
        Some(text) => {
            put_code(out, 1, b'o')?;
            put_text(out, little, text.as_bytes())?;
            Ok(())
        }
        None => Ok(()),
    }
}

// Adds the field of a string, where it is there.
#[tactic(auto, using(crate::proofs::WriteSteps::string_written))]
fn put_string(
    out: &mut Vec<u8>,
    little: bool,
    code: u8,
    field: &Option<Text>,
) -> Result<(), AllocError>
    requires { IfSome field.now (λ t. length t < 2 ^ 32) }
    ensures { PutsField little result out.old out.new (words_field code string field.now) }
{
    match field {
        Some(text) => {
            put_code(out, code, b's')?;
            put_text(out, little, text.as_bytes())?;
            Ok(())
        }
        None => Ok(()),
    }
}

// Adds the field of a number, where it is there.
#[tactic(auto, using(crate::proofs::WriteSteps::number_written))]
fn put_number(
    out: &mut Vec<u8>,
    little: bool,
    code: u8,
    field: Option<u32>,
) -> Result<(), AllocError>
    ensures { PutsField little result out.old out.new (number_field code field) }
{
    match field {
        Some(number) => {
            put_code(out, code, b'u')?;
            put_u32(out, little, number)?;
            Ok(())
        }
        None => Ok(()),
    }
}

// Adds the signature of the body, where it is not empty.
#[tactic(auto, using(crate::proofs::WriteSteps::signature_written, crate::proofs::WriteSteps::no_signature_written))]
fn put_signature_field(out: &mut Vec<u8>, little: bool, text: &[u8]) -> Result<(), AllocError>
    requires { length text.now ≤ 255 }
    ensures { PutsField little result out.old out.new (words_field 8 signature (if_any text.now)) }
{
    if text.is_empty() {
        return Ok(());
    }
    put_code(out, 8, b'g')?;
    put_signature(out, text)?;
    Ok(())
}

// Adds the fields in the order of their codes.
#[tactic(auto, using(crate::proofs::Checked::path_fits, crate::proofs::Checked::interface_fits, crate::proofs::Checked::member_fits, crate::proofs::Checked::error_fits, crate::proofs::Checked::destination_fits, crate::proofs::Checked::sender_fits, crate::proofs::Checked::signature_fits))]
fn put_fields(out: &mut Vec<u8>, message: &Message) -> Result<(), AllocError>
    requires { are_fields (fields_of message.now) ≡ true }
    ensures { Adds result out.old.items out.new.items (spec.fields_text (plain message.now)) }
{
    let little = message.little;
    put_path(out, little, &message.path)?;
    put_string(out, little, 2, &message.interface)?;
    put_string(out, little, 3, &message.member)?;
    put_string(out, little, 4, &message.error_name)?;
    put_number(out, little, 5, message.reply_serial)?;
    put_string(out, little, 6, &message.destination)?;
    put_string(out, little, 7, &message.sender)?;
    put_signature_field(out, little, message.signature.as_bytes())?;
    put_number(out, little, 9, message.fds)?;
    Ok(())
}

// Adds the first four bytes: byte order, kind, flags and version.
fn put_start(out: &mut Vec<u8>, message: &Message) -> Result<(), AllocError>
    ensures { OnOk result (out.new.items ≡ out.old.items ++ spec.start_text (plain message.now)) }
{
    out.push(if message.little { b'l' } else { b'B' })?;
    out.push(message.kind)?;
    out.push(message.flags)?;
    out.push(1)?;
    Ok(())
}

// Makes the header: the lengths of the body and of the fields are given.
fn put_head(out: &mut Vec<u8>, message: &Message, body: u32, fields: u32) -> Result<(), AllocError>
    requires empty { out.old.items ≡ [] }
    requires fields { are_fields (fields_of message.now) ≡ true }
    requires length { fields ≡ length (spec.fields_text (plain message.now) 16) }
    ensures { OnOk result (out.new.items ≡ spec.head_text (plain message.now) body) }
{
    put_start(out, message)?;
    put_u32(out, message.little, body)?;
    put_u32(out, message.little, message.serial)?;
    put_u32(out, message.little, fields)?;
    put_fields(out, message)?;
    Ok(())
}

/// The spelling of a message whose fields stand in the order of their codes, by its layout.
pub fn spelled(alloc: Global, message: &Message, layout: Layout) -> Result<Vec<u8>, NoMemory>
    requires fields { layout.fields_end ≡ fields_end (plain message.now) }
    requires spelled { IsSpelledIn (plain message.now) layout.end }
    requires small { layout.end ≤ 1048576 }
    ensures { IfOk result (λ b. SpellsInOrder b.items (plain message.now)) }
{
    let head = layout.fields_end;
    let start = head + gap_before(8, head);
    let mut out = Vec::new(alloc);
    put_head(
        &mut out,
        message,
        (layout.end - start) as u32,
        (head - 16) as u32,
    )?;
    put_gap(&mut out, 8)?;
    write_values(&mut out, message.little, &message.body)?;
    Ok(out)
}
