//! Which messages the grammar spells, and how long they then are.

ghost use Rattle.std.specs.Prelude.{◌≡◌, ◌+◌, ◌*◌, ◌≤◌, ◌<◌, ◌^◌, ◌↔◌, ℕ, Bool, true, List, length, nat_lt, IfSome, IsSome};
ghost use Rattle.wire_value.specs.Types.{string, object_path};
ghost use Rattle.wire_value.specs.Sizes.{end_all};
ghost use Rattle.dbus_wire.specs.Checking as spec;
ghost use Rattle.dbus_wire.specs.InOrder.{in_order, IsSpelledIn, HasSpelling};
ghost use Rattle.dbus_wire.specs.InOrder as order_spec;
ghost use Rattle.dbus_wire.specs.Fields.{if_any};
ghost use Rattle.dbus_wire.specs.MessageView.{fields_of, plain};

use crate::fields::has_needed;
use crate::message::Message;
use crate::names::{is_interface, is_member};
use updater_text::Text;
use wire_value::parts::{gap_before, is_path, string_of};
use wire_value::{end_of_values, is_signature};

// Whether a text can stand in a message, and is no longer than its fields together may be.
#[tactic(auto, using(wire_value::proofs::Texts::string_yes, wire_value::proofs::Texts::string_no))]
fn is_short_string(text: &[u8]) -> bool
    ensures { result ≡ spec.is_short_string text.now }
{
    text.len() <= 67_108_864 && string_of(text).is_some()
}

fn is_path_field(field: &Option<Text>) -> bool
    ensures { result ≡ spec.if_there spec.is_path_text field.now }
{
    match field {
        Some(text) => is_short_string(text.as_bytes()) && is_path(text.as_bytes()),
        None => true,
    }
}

fn is_interface_field(field: &Option<Text>) -> bool
    ensures { result ≡ spec.if_there spec.is_interface_text field.now }
{
    match field {
        Some(text) => is_short_string(text.as_bytes()) && is_interface(text.as_bytes()),
        None => true,
    }
}

fn is_member_field(field: &Option<Text>) -> bool
    ensures { result ≡ spec.if_there spec.is_member_text field.now }
{
    match field {
        Some(text) => is_short_string(text.as_bytes()) && is_member(text.as_bytes()),
        None => true,
    }
}

fn is_string_field(field: &Option<Text>) -> bool
    ensures { result ≡ spec.if_there spec.is_short_string field.now }
{
    match field {
        Some(text) => is_short_string(text.as_bytes()),
        None => true,
    }
}

fn is_serial_field(field: Option<u32>) -> bool
    ensures { result ≡ spec.if_there (λ n. nat_lt 0 n) field }
{
    match field {
        Some(serial) => serial > 0,
        None => true,
    }
}

fn are_names(message: &Message) -> bool
    ensures { result ≡ spec.are_names (fields_of message.now) }
{
    if !is_path_field(&message.path) {
        return false;
    }
    if !is_interface_field(&message.interface) {
        return false;
    }
    if !is_member_field(&message.member) {
        return false;
    }
    is_interface_field(&message.error_name)
}

// Whether the other fields that are there have their forms.
#[tactic(auto, using(crate::proofs::Checked::signature_field))]
fn are_others(message: &Message) -> bool
    ensures { result ≡ spec.are_others (fields_of message.now) }
{
    if !is_serial_field(message.reply_serial) {
        return false;
    }
    if !is_string_field(&message.destination) {
        return false;
    }
    if !is_string_field(&message.sender) {
        return false;
    }
    is_signature(message.signature.as_bytes())
}

// Where the value of a field begins that may begin at an offset: behind its padding, its code and
// the signature of its value.
#[tactic(auto, using(crate::proofs::Headers::gap_1))]
fn value_start(offset: usize) -> usize
    requires { offset ≤ 2 ^ 40 }
    ensures is { result ≡ spec.value_start offset }
    ensures near { result ≤ offset + 12 }
{
    offset + gap_before(8, offset) + 4
}

#[tactic(auto, using(crate::proofs::Checked::text_is))]
fn text_end(field: &Option<Text>, offset: usize) -> usize
    requires near { offset ≤ 2 ^ 32 }
    requires short { IfSome field.now (λ t. length t ≤ 2 ^ 26) }
    ensures is { result ≡ spec.text_end field.now offset }
    ensures near { result ≤ offset + 2 ^ 27 }
{
    match field {
        Some(text) => {
            let start = value_start(offset);
            start + gap_before(4, start) + 4 + text.as_bytes().len() + 1
        }
        None => offset,
    }
}

#[tactic(auto, using(crate::proofs::Checked::number_is))]
fn number_end(field: Option<u32>, offset: usize) -> usize
    requires near { offset ≤ 2 ^ 32 }
    ensures is { result ≡ spec.number_end field offset }
    ensures fits { IfSome field (λ x. x < 2 ^ 32) }
    ensures near { result ≤ offset + 2 ^ 27 }
{
    match field {
        Some(_number) => {
            let start = value_start(offset);
            start + gap_before(4, start) + 4
        }
        None => offset,
    }
}

// The field of a signature is there where the signature is not empty.
#[tactic(auto, using(crate::proofs::Checked::no_signature, crate::proofs::Checked::some_signature))]
fn signature_end(signature: &[u8], offset: usize) -> usize
    requires near { offset ≤ 2 ^ 32 }
    requires short { length signature.now ≤ 255 }
    ensures is { result ≡ spec.signature_end (if_any signature.now) offset }
    ensures near { result ≤ offset + 2 ^ 27 }
{
    if signature.is_empty() {
        return offset;
    }
    value_start(offset) + 1 + signature.len() + 1
}

// Where the fields end in the order of their codes.
#[tactic(auto, using(crate::proofs::Checked::all_end, crate::proofs::Checked::path_fits, crate::proofs::Checked::interface_fits, crate::proofs::Checked::member_fits, crate::proofs::Checked::error_fits, crate::proofs::Checked::destination_fits, crate::proofs::Checked::sender_fits, crate::proofs::Checked::signature_fits))]
fn fields_end(message: &Message) -> usize
    requires { spec.are_fields (fields_of message.now) ≡ true }
    ensures is { result ≡ end_all 16 (in_order (fields_of message.now)) }
    ensures fits { spec.NumbersFit message.now.reply_serial message.now.fds }
    ensures near { result ≤ 2 ^ 31 }
{
    let end = text_end(&message.path, 16);
    let end = text_end(&message.interface, end);
    let end = text_end(&message.member, end);
    let end = text_end(&message.error_name, end);
    let end = number_end(message.reply_serial, end);
    let end = text_end(&message.destination, end);
    let end = text_end(&message.sender, end);
    let end = signature_end(message.signature.as_bytes(), end);
    number_end(message.fds, end)
}

// Whether kind, serial and fields are such that the grammar may spell them.
fn has_head(message: &Message) -> bool
    ensures is { result ≡ spec.has_head (plain message.now) }
    ensures fits { spec.HeadFits message.now.kind message.now.flags message.now.serial }
{
    let _flags = message.flags;
    let (kind, serial) = (message.kind, message.serial);
    if kind == 0 || serial == 0 {
        return false;
    }
    if !are_names(message) || !are_others(message) {
        return false;
    }
    has_needed(
        kind,
        &message.path,
        &message.interface,
        &message.member,
        &message.error_name,
        message.reply_serial,
    )
}

/// Where the fields of a message end in the order of their codes, and where the message then ends.
#[derive(Clone, Copy)]
pub struct Layout {
    pub fields_end: usize,
    pub end: usize,
}

/// How the spelling of a message lies whose fields stand in the order of their codes. None exactly
/// where the grammar has no spelling of it. It takes no memory.
pub fn layout_of(message: &Message) -> Option<Layout>
    ensures fields { IfSome result (λ l. l.fields_end ≡ order_spec.fields_end (plain message.now)) }
    ensures found { IfSome result (λ l. IsSpelledIn (plain message.now) l.end) }
    ensures only { HasSpelling (plain message.now) → IsSome result }
    ensures below { IfSome result (λ l. (l.fields_end ≤ 67_108_880) × (l.end < 2 ^ 33)) }
{
    if !has_head(message) {
        return None;
    }
    let head = fields_end(message);
    if head > 67_108_880 {
        return None;
    }
    let start = head + gap_before(8, head);
    let signature = message.signature.as_bytes();
    match end_of_values(&message.body, signature, 64, start, start + 4_294_967_295) {
        Some(end) => Some(Layout {
            fields_end: head,
            end,
        }),
        None => None,
    }
}

/// Whether the grammar has a spelling of a message: each field that is there has its form, the kind
/// has the fields that it needs, the body is of the signature, and nothing is too long or nests too
/// deep. It takes no memory.
pub fn is_valid(message: &Message) -> bool
    ensures { (result ≡ true) ↔ HasSpelling (plain message.now) }
{
    layout_of(message).is_some()
}
