ghost use Rattle.std.specs.Prelude.{◌≡◌, [], take, IfOk};
ghost use Rattle.std.specs.Option.{option_copied};
ghost use Rattle.machine.specs.Calls.{is_cut, kept_output};
ghost use Rattle.machine.specs.declared.world.Ended.TheVariants.{Code};
ghost use Rattle.machine_bench.specs.Scripts as spec;

use crate::setup::Script;
use boot_programs::ProgramEnd;
use machine::{Child, Ended, Exit, KEPT_OUTPUT, copy_bytes};
use std::alloc::Global;
use undo_log::Effect;
use updater_text::{Items, NoMemory, Text};

// The status of a child that no script is for.
const UNSCRIPTED: u8 = 127;

// Whether the first texts are a front of the others.
fn is_front(front: &[Text], texts: &[Text]) -> bool
    ensures { result ≡ spec.is_front front.now texts.now }
{
    let [first, front @ ..] = front else {
        return true;
    };
    let [text, texts @ ..] = texts else {
        return false;
    };
    first.as_str() == text.as_str() && is_front(front, texts)
}

fn is_script_for(child: &Child, script: &Script) -> bool
    ensures { result ≡ spec.is_script_for child.now script.now }
{
    script.program.as_str() == child.program.as_str()
        && is_front(script.args.as_slice(), child.args.as_slice())
}

/// The first script that is for the child.
pub fn script_for<'a>(scripts: &'a [Script], child: &Child) -> Option<&'a Script>
    ensures { option_copied result ≡ spec.script_for scripts.now child.now }
{
    scripts.iter().find(|script| is_script_for(child, *script))
}

// The front of a stream that is kept.
fn front(alloc: Global, bytes: &[u8]) -> Result<Items<u8>, NoMemory>
    ensures { IfOk result (λ kept. kept ≡ take kept_output bytes.now) }
{
    copy_bytes(alloc, &bytes[..bytes.len().min(KEPT_OUTPUT)])
}

/// The end of a child by its script.
pub fn exit_of(alloc: Global, script: Option<&Script>) -> Result<Exit, NoMemory>
    ensures exit { IfOk result (λ exit. exit ≡ spec.exit_of (option_copied script.entry)) }
{
    let Some(script) = script else {
        return Ok(Exit {
            ended: Ended::Code(UNSCRIPTED),
            out: Items::new(alloc),
            err: Items::new(alloc),
            cut: false,
        });
    };
    let out = front(alloc, script.out.as_slice())?;
    let err = front(alloc, script.err.as_slice())?;
    Ok(Exit {
        ended: script.ended,
        out,
        err,
        cut: script.out.len() > KEPT_OUTPUT || script.err.len() > KEPT_OUTPUT,
    })
}

// The end of a program that ends with this status and puts this out.
fn program_exit(alloc: Global, code: u8, out: &[u8]) -> Result<Exit, NoMemory>
    ensures { IfOk result (λ exit. exit ≡ record { ended = Code code; out = take kept_output out.now; err = []; cut = is_cut out.now }) }
{
    let cut = out.len() > KEPT_OUTPUT;
    let out = front(alloc, out)?;
    Ok(Exit {
        ended: Ended::Code(code),
        out,
        err: Items::new(alloc),
        cut,
    })
}

/// The end of a boot program: by its script, or else as what it does.
pub fn boot_exit(alloc: Global, script: Option<&Script>, end: &ProgramEnd) -> Result<Exit, NoMemory>
    ensures exit { IfOk result (λ exit. exit ≡ spec.boot_exit (option_copied script.entry) end.now) }
{
    match script {
        Some(script) => exit_of(alloc, Some(script)),
        None => program_exit(alloc, end.code, end.out.as_slice()),
    }
}

/// The effects of a child by its script.
pub fn effects_of(script: Option<&Script>) -> &[Effect]
    ensures { result.now ≡ spec.effects_of (option_copied script.entry) }
{
    match script {
        Some(script) => script.effects.as_slice(),
        None => &[],
    }
}
