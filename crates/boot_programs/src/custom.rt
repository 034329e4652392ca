ghost use Rattle.std.specs.Prelude.{◌≡◌, ◌++◌, ◌∷◌, [], IfOk};
ghost use Rattle.boot_programs.specs.Custom as spec;
ghost use Rattle.boot_programs.specs.Ends as ends;
ghost use Rattle.boot_state.specs.Custom.{is_down, made_primary, state_name, with_state};

use crate::ProgramEnd;
use boot_model::Vars;
use std::alloc::Global;
use updater_text::{NoMemory, Text};

/// What a backend of the system's own does (RAUC's manual, on custom backends):
/// `get-primary` and `get-state NAME` print, `set-primary NAME` and `set-state NAME STATE` set.
pub fn custom_backend(alloc: Global, words: &[Text], vars: &Vars) -> Result<ProgramEnd, NoMemory>
    ensures { IfOk result (λ end. end ≡ spec.custom_backend words.now vars.now) }
{
    match words {
        [verb] => on_primary(alloc, verb.as_str(), vars),
        [verb, name] => on_name(alloc, verb.as_str(), name.as_str(), vars),
        [verb, name, state] => on_state(alloc, verb.as_str(), name.as_str(), state.as_str(), vars),
        _ => ProgramEnd::refused(alloc, vars),
    }
}

fn on_primary(alloc: Global, verb: &str, vars: &Vars) -> Result<ProgramEnd, NoMemory>
    ensures { IfOk result (λ end. end ≡ spec.on_primary verb.now vars.now) }
{
    match verb {
        "get-primary" => get_primary(alloc, vars),
        _ => ProgramEnd::refused(alloc, vars),
    }
}

fn on_name(alloc: Global, verb: &str, name: &str, vars: &Vars) -> Result<ProgramEnd, NoMemory>
    ensures { IfOk result (λ end. end ≡ spec.on_name verb.now name.now vars.now) }
{
    match verb {
        "get-state" => get_state(alloc, name, vars),
        "set-primary" => set_primary(alloc, name, vars),
        _ => ProgramEnd::refused(alloc, vars),
    }
}

fn on_state(
    alloc: Global,
    verb: &str,
    name: &str,
    state: &str,
    vars: &Vars,
) -> Result<ProgramEnd, NoMemory>
    ensures { IfOk result (λ end. end ≡ spec.on_state verb.now name.now state.now vars.now) }
{
    match verb {
        "set-state" => set_state(alloc, name, state, vars),
        _ => ProgramEnd::refused(alloc, vars),
    }
}

fn get_primary(alloc: Global, vars: &Vars) -> Result<ProgramEnd, NoMemory>
    ensures { IfOk result (λ end. end ≡ ends.printed vars.now (spec.primary_text vars.now ++ 10 ∷ [])) }
{
    let mut out = Vec::new(alloc);
    if let Some(name) = vars.get("primary") {
        if !is_bad(alloc, name, vars)? {
            out.extend_from_slice(name.as_bytes())?;
        }
    }
    out.push(b'\n')?;
    ProgramEnd::printed(out, vars)
}

fn is_bad(alloc: Global, name: &str, vars: &Vars) -> Result<bool, NoMemory>
    ensures { IfOk result (λ bad. bad ≡ is_down vars.now name.now) }
{
    let variable = state_name(alloc, name)?;
    match vars.get(variable.as_str()) {
        Some(state) => Ok(state == "bad"),
        None => Ok(false),
    }
}

fn get_state(alloc: Global, name: &str, vars: &Vars) -> Result<ProgramEnd, NoMemory>
    ensures { IfOk result (λ end. end ≡ ends.printed vars.now (spec.state_text vars.now name.now ++ 10 ∷ [])) }
{
    let state = state_name(alloc, name)?;
    let mut out = Vec::new(alloc);
    out.extend_from_slice(vars.get(state.as_str()).unwrap_or("good").as_bytes())?;
    out.push(b'\n')?;
    ProgramEnd::printed(out, vars)
}

fn set_state(alloc: Global, name: &str, state: &str, vars: &Vars) -> Result<ProgramEnd, NoMemory>
    ensures { IfOk result (λ end. end ≡ ends.changed (with_state state.now name.now vars.now)) }
{
    let variable = state_name(alloc, name)?;
    ProgramEnd::set(alloc, variable.as_str(), state, vars)
}

fn set_primary(alloc: Global, name: &str, vars: &Vars) -> Result<ProgramEnd, NoMemory>
    ensures { IfOk result (λ end. end ≡ ends.changed (made_primary name.now vars.now)) }
{
    let variable = state_name(alloc, name)?;
    let mut after = vars.copy()?;
    after.set("primary", name)?;
    after.set(variable.as_str(), "good")?;
    Ok(ProgramEnd::changed(alloc, after))
}

// The name of the variable with the state of a name.
fn state_name(alloc: Global, name: &str) -> Result<Text, NoMemory>
    ensures { IfOk result (λ text. text ≡ state_name name.now) }
{
    let mut variable = String::from_str(alloc, "state.")?;
    variable.push_str(name)?;
    Ok(Text::from_string(variable))
}
