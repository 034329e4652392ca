ghost use Rattle.std.specs.Prelude.{◌≡◌, ◌≤◌, ◌++◌, IfOk};
ghost use Rattle.boot_state.specs.Orders.{digit_of};

use crate::Setting;
use std::alloc::Global;
use updater_text::{NoMemory, Text};

/// These three texts, one after another.
pub fn joined_text(alloc: Global, front: &str, name: &str, back: &str) -> Result<Text, NoMemory>
    ensures { IfOk result (λ text. text ≡ front.now ++ (name.now ++ back.now)) }
{
    let mut text = String::from_str(alloc, front)?;
    text.push_str(name)?;
    text.push_str(back)?;
    Ok(Text::from_string(text))
}

/// A count of one digit as text.
pub fn digit(alloc: Global, count: u8) -> Result<Text, NoMemory>
    requires { count ≤ 9 }
    ensures { IfOk result (λ text. text ≡ digit_of count) }
{
    let mut text = String::new(alloc);
    text.push(char::from(b'0' + count))?;
    Ok(Text::from_string(text))
}

/// The variable that this name is put into, and its value.
pub fn setting_of(
    alloc: Global,
    front: &str,
    name: &str,
    back: &str,
    value: Text,
) -> Result<Setting, NoMemory>
    ensures { IfOk result (λ s. s ≡ record { name = front.now ++ (name.now ++ back.now); value = value }) }
{
    let name = joined_text(alloc, front, name, back)?;
    Ok(Setting { name, value })
}
