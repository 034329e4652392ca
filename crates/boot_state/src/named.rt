ghost use Rattle.std.specs.Prelude.{◌≡◌, position};
ghost use Rattle.std.specs.Str.{bytes_eq};
ghost use Rattle.boot_state.specs.Orders.{has_word};

use updater_text::Text;

/// Whether this is one of the names.
pub fn has_name(names: &[Text], name: &[u8]) -> bool
    ensures { result ≡ has_word names.now name.now }
{
    names.iter().any(|other| other.as_bytes() == name)
}

/// The place of this name, the first one where there are more.
pub fn place_of(names: &[Text], name: &[u8]) -> Option<usize>
    ensures { result ≡ position (λ other. bytes_eq other name.now) names.now }
{
    names.iter().position(|other| other.as_bytes() == name)
}
