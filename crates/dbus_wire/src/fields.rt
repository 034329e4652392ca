//! What the fields of a header say.

ghost use Rattle.std.specs.Prelude.{◌≡◌, option_map};
ghost use Rattle.wire_value.specs.Gives.{Gives};
ghost use Rattle.wire_value.specs.View.{view, views};
ghost use Rattle.dbus_wire.specs.Fields as spec;
ghost use Rattle.dbus_wire.specs.FieldsView.{plain_fields, lent, GivesSaid};

use crate::names::{is_interface, is_member};
use std::alloc::Global;
use updater_text::Text;
use wire_value::{ReadError, Value};

/// What the fields of a header say; one that is left out is None.
#[derive(Drop)]
pub struct Fields {
    pub path: Option<Text>,
    pub interface: Option<Text>,
    pub member: Option<Text>,
    pub error_name: Option<Text>,
    pub reply_serial: Option<u32>,
    pub destination: Option<Text>,
    pub sender: Option<Text>,
    pub signature: Option<Text>,
    pub fds: Option<u32>,
}

pub fn no_fields() -> Fields
    ensures { plain_fields result ≡ spec.no_fields }
{
    Fields {
        path: None,
        interface: None,
        member: None,
        error_name: None,
        reply_serial: None,
        destination: None,
        sender: None,
        signature: None,
        fds: None,
    }
}

fn path_in(value: &Value) -> Option<&Text>
    ensures { lent result ≡ spec.path_in (view value.now) }
{
    match value {
        Value::Path(text) => Some(text),
        _ => None,
    }
}

fn string_in(value: &Value) -> Option<&Text>
    ensures { lent result ≡ spec.string_in (view value.now) }
{
    match value {
        Value::Str(text) => Some(text),
        _ => None,
    }
}

fn signature_in(value: &Value) -> Option<&Text>
    ensures { lent result ≡ spec.signature_in (view value.now) }
{
    match value {
        Value::Sig(text) => Some(text),
        _ => None,
    }
}

fn number_in(value: &Value) -> Option<u32>
    ensures { result ≡ spec.number_in (view value.now) }
{
    match value {
        Value::U32(number) => Some(*number),
        _ => None,
    }
}

fn interface_in(value: &Value) -> Option<&Text>
    ensures { lent result ≡ spec.interface_in (view value.now) }
{
    let text = string_in(value)?;
    if is_interface(text.as_bytes()) {
        Some(text)
    } else {
        None
    }
}

fn member_in(value: &Value) -> Option<&Text>
    ensures { lent result ≡ spec.member_in (view value.now) }
{
    let text = string_in(value)?;
    if is_member(text.as_bytes()) {
        Some(text)
    } else {
        None
    }
}

fn serial_in(value: &Value) -> Option<u32>
    ensures { result ≡ spec.serial_in (view value.now) }
{
    let serial = number_in(value)?;
    if serial > 0 { Some(serial) } else { None }
}

// Fills a field that was not said before.
fn say_text(alloc: Global, field: &mut Option<Text>, text: Option<&Text>) -> Result<(), ReadError>
    ensures { Gives (λ _. field.new) result (spec.once field.old (lent text.entry)) }
{
    let Some(text) = text else {
        return Err(ReadError::Malformed);
    };
    if field.is_some() {
        return Err(ReadError::Malformed);
    }
    *field = Some(text.copy(alloc)?);
    Ok(())
}

fn say_number(field: &mut Option<u32>, number: Option<u32>) -> Result<(), ReadError>
    ensures { Gives (λ _. field.new) result (spec.once field.old number) }
{
    if field.is_some() || number.is_none() {
        return Err(ReadError::Malformed);
    }
    *field = number;
    Ok(())
}

// Adds what the field of a code says.
#[tactic(auto, unfolding(crate::specs::Fields::with_field))]
pub fn say(alloc: Global, said: &mut Fields, code: u8, value: &Value) -> Result<(), ReadError>
    ensures { GivesSaid said.new result (spec.with_field (plain_fields said.old) code (view value.now)) }
{
    match code {
        0 => Err(ReadError::Malformed),
        1 => say_text(alloc, &mut said.path, path_in(value)),
        2 => say_text(alloc, &mut said.interface, interface_in(value)),
        3 => say_text(alloc, &mut said.member, member_in(value)),
        4 => say_text(alloc, &mut said.error_name, interface_in(value)),
        5 => say_number(&mut said.reply_serial, serial_in(value)),
        6 => say_text(alloc, &mut said.destination, string_in(value)),
        7 => say_text(alloc, &mut said.sender, string_in(value)),
        8 => say_text(alloc, &mut said.signature, signature_in(value)),
        9 => say_number(&mut said.fds, number_in(value)),
        _ => Ok(()),
    }
}

impl Fields {
    /// The signature of the body; none is the empty one.
    pub fn signature(&self) -> &[u8]
        ensures { result.now ≡ spec.signature_of (plain_fields self.now) }
    {
        match &self.signature {
            Some(text) => text.as_bytes(),
            None => &[],
        }
    }
}

/// Whether the fields are there that a kind of message has to have.
pub fn has_needed(
    kind: u8,
    path: &Option<Text>,
    interface: &Option<Text>,
    member: &Option<Text>,
    error_name: &Option<Text>,
    reply: Option<u32>,
) -> bool
    ensures { result ≡ spec.has_those kind path.now interface.now member.now error_name.now reply }
{
    match kind {
        1 => path.is_some() && member.is_some(),
        2 => reply.is_some(),
        3 => error_name.is_some() && reply.is_some(),
        4 => path.is_some() && interface.is_some() && member.is_some(),
        _ => true,
    }
}
