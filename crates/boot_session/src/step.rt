ghost use Rattle.std.specs.Prelude.{◌≡◌, IfOk};
ghost use Rattle.boot_programs.specs.Programs.{program};

use crate::kind::words_of;
use boot_model::{BootKind, Vars};
use boot_programs::{ProgramEnd, program};
use std::alloc::Global;
use updater_text::{Items, NoMemory, Text};

/// What a line does: the text that is told of it, and the variables after it.
#[derive(Drop)]
pub struct Step {
    pub text: Items<u8>,
    pub vars: Vars,
}

impl Step {
    ghost use Rattle.boot_session.specs.Session as spec;

    /// What a line does; None where it is no command and gives no variable.
    pub fn new(
        alloc: Global,
        kind: &BootKind,
        line: &str,
        vars: &Vars,
    ) -> Result<Option<Step>, NoMemory>
        ensures { IfOk result (λ step. step ≡ spec.line_step kind.now vars.now line.now) }
    {
        let words = words_of(alloc, line)?;
        match words.as_slice() {
            [word, rest @ ..] if word.as_str().is_empty() => Step::given(alloc, rest, vars),
            words => Step::run(alloc, kind, words, vars),
        }
    }

    // A variable is set from elsewhere.
    fn given(alloc: Global, words: &[Text], vars: &Vars) -> Result<Option<Step>, NoMemory>
        ensures { IfOk result (λ step. step ≡ spec.given words.now vars.now) }
    {
        let [name, value] = words else {
            return Ok(None);
        };
        let mut after = vars.copy()?;
        after.set(name.as_str(), value.as_str())?;
        Ok(Some(Step {
            text: Items::new(alloc),
            vars: after,
        }))
    }

    // A command is run.
    fn run(
        alloc: Global,
        kind: &BootKind,
        argv: &[Text],
        vars: &Vars,
    ) -> Result<Option<Step>, NoMemory>
        ensures { IfOk result (λ step. step ≡ Some (spec.ran (program kind.now argv.now vars.now))) }
    {
        let end = program(alloc, kind, argv, vars)?;
        let text = Step::end_text(alloc, &end)?;
        Ok(Some(Step {
            text,
            vars: end.vars,
        }))
    }

    // How a program ended, and what it printed.
    fn end_text(alloc: Global, end: &ProgramEnd) -> Result<Items<u8>, NoMemory>
        ensures { IfOk result (λ text. text ≡ spec.end_text end.now) }
    {
        let code = end.code;
        let count = end.out.len();
        let heading = format!(in alloc; "status {code}, bytes {count}\n")?;
        let mut text = Vec::new(alloc);
        text.extend_from_slice(heading.as_bytes())?;
        text.extend_from_slice(end.out.as_slice())?;
        Ok(Items::from_vec(text))
    }
}
