ghost use Rattle.std.specs.Prelude.{◌≡◌, IfOk};
ghost use Rattle.std.specs.FinMap.{insert, remove};

use boot_model::Vars;
use std::alloc::Global;
use updater_text::{Items, NoMemory};

/// How a program ends: its exit code, what it printed, and the variables after it.
#[derive(Drop)]
pub struct ProgramEnd {
    pub code: u8,
    pub out: Items<u8>,
    pub vars: Vars,
}

impl ProgramEnd {
    ghost use Rattle.boot_programs.specs.Ends as spec;

    /// It failed and did nothing.
    pub(crate) fn refused(alloc: Global, vars: &Vars) -> Result<ProgramEnd, NoMemory>
        ensures { IfOk result (λ end. end ≡ spec.refused vars.now) }
    {
        let vars = vars.copy()?;
        Ok(ProgramEnd {
            code: 1,
            out: Items::new(alloc),
            vars,
        })
    }

    /// It printed this, and left the variables.
    pub(crate) fn printed(out: Vec<u8>, vars: &Vars) -> Result<ProgramEnd, NoMemory>
        ensures { IfOk result (λ end. end ≡ spec.printed vars.now out.items) }
    {
        let vars = vars.copy()?;
        Ok(ProgramEnd {
            code: 0,
            out: Items::from_vec(out),
            vars,
        })
    }

    /// It left these variables. It takes no memory.
    pub(crate) fn changed(alloc: Global, vars: Vars) -> ProgramEnd
        ensures { result ≡ spec.changed vars }
    {
        ProgramEnd {
            code: 0,
            out: Items::new(alloc),
            vars,
        }
    }

    /// It gave one variable a value.
    pub(crate) fn set(
        alloc: Global,
        name: &str,
        value: &str,
        vars: &Vars,
    ) -> Result<ProgramEnd, NoMemory>
        ensures { IfOk result (λ end. end ≡ spec.changed (insert vars.now name.now value.now)) }
    {
        let mut after = vars.copy()?;
        after.set(name, value)?;
        Ok(ProgramEnd::changed(alloc, after))
    }

    /// It took one variable away.
    pub(crate) fn removed(alloc: Global, name: &str, vars: &Vars) -> Result<ProgramEnd, NoMemory>
        ensures { IfOk result (λ end. end ≡ spec.changed (remove vars.now name.now)) }
    {
        let mut after = vars.copy()?;
        after.remove(name);
        Ok(ProgramEnd::changed(alloc, after))
    }
}
