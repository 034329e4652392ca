ghost use Rattle.std.specs.Prelude.{◌≡◌, ◌==◌, ◌<◌};
ghost use Rattle.std.specs.List.{before_first};
ghost use Rattle.std.specs.Option.{option_copied};
ghost use Rattle.boot_outputs.specs.Texts as spec;

/// What follows a front.
pub fn behind<'a>(text: &'a str, front: &str) -> Option<&'a str>
    ensures { option_copied result ≡ spec.behind front.now text.entry.now }
{
    text.strip_prefix(front)
}

/// What stands before the first such character, or all of a text without one.
pub fn before(text: &str, end: char) -> &str
    requires { end < 128 }
    ensures { result.now ≡ before_first (λ b. b == end) text.entry.now }
{
    match text.split_once(end) {
        Some((front, _)) => front,
        None => text,
    }
}

/// The first line of a text.
pub fn first_line(text: &str) -> &str
    ensures { result.now ≡ spec.first_line text.entry.now }
{
    before(text, '\n')
}
