ghost use Rattle.std.specs.Prelude.{◌≤◌, List, length};
ghost use Rattle.updater_text.specs.Sinks.{Shown};
ghost use Rattle.install_facts.specs.declared.report.Note.{Note};
ghost use Rattle.install_facts.specs.Notes.{AddsNote};

use updater_text::Text;

/// How far an install is: so many percent, and what was done.
#[derive(Drop)]
pub struct Note {
    pub percent: u8,
    pub text: Text,
}

/// Where the notes of an install go, as they come.
pub trait Report {
    /// What it holds is this start and these notes: of a sink, for instance, what it had before the
    /// first of them, and then their lines.
    ghost stands: { Self → Shown → List Note → Type 0 };

    /// Takes a note: so many percent, and a text of at most 279 bytes, which is what the name of a slot
    /// takes with the longest words beside it. It takes no memory and cannot fail; what cannot be put
    /// out is the report's own matter.
    fn note(&mut self, percent: u8, text: &str)
        requires { length text.now ≤ 279 }
        ensures { AddsNote (stands self.old) (stands self.new) percent text.now };
}
