//! The fields of a header, one after the other.

ghost use Rattle.std.specs.Prelude.{◌≡◌};
ghost use Rattle.wire_value.specs.Gives.{Gives};
ghost use Rattle.wire_value.specs.View.{view, views};
ghost use Rattle.dbus_wire.specs.Fields as spec;
ghost use Rattle.dbus_wire.specs.FieldsView.{plain_fields, lent_field};

use crate::fields::{Fields, no_fields, say};
use std::alloc::Global;
use wire_value::{ReadError, Value};

fn coded<'a>(code: &Value, value: &'a Value) -> Option<(u8, &'a Value)>
    ensures { lent_field result ≡ spec.coded (view code.now) (view value.now) }
{
    match code {
        Value::Byte(code) => match value {
            Value::Variant(inner) => Some((*code, inner)),
            _ => None,
        },
        _ => None,
    }
}

#[tactic(auto, using(crate::proofs::FieldSteps::no_pair))]
fn coded_in(members: &[Value]) -> Option<(u8, &Value)>
    ensures { lent_field result ≡ spec.coded_in (views members.now) }
{
    if members.len() != 2 {
        return None;
    }
    coded(&members[0], &members[1])
}

// The code and the value of a field.
fn field_in(field: &Value) -> Option<(u8, &Value)>
    ensures { lent_field result ≡ spec.field_in (view field.now) }
{
    match field {
        Value::Struct(members) => coded_in(members),
        _ => None,
    }
}

/// What fields say together. Malformed where one may not stand as it does.
#[tactic(auto, using(crate::proofs::FieldSteps::said_goes_on, crate::proofs::FieldSteps::said_no_field, crate::proofs::FieldSteps::said_fails, crate::proofs::FieldSteps::said_done))]
pub fn said(alloc: Global, fields: &[Value]) -> Result<Fields, ReadError>
    ensures { Gives plain_fields result (spec.said spec.no_fields (views fields.now)) }
{
    let mut said = no_fields();
    for field in fields {
        let Some((code, value)) = field_in(field) else {
            return Err(ReadError::Malformed);
        };
        say(alloc, &mut said, code, value)?;
    }
    Ok(said)
}
