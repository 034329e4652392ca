ghost use Rattle.std.specs.Prelude.{◌≡◌, IfOk};
ghost use Rattle.system_conf.specs.Reads.{system_configuration};
ghost use Rattle.install_facts.specs.Facts.{AreSound, facts_content};
ghost use Rattle.install_plan.specs.Acts.{acts_of};
ghost use Rattle.install_core.specs.Preparing as spec;

use install_facts::Facts;
use install_plan::{Act, acts_of};
use install_steps::JobEnd;
use std::alloc::Global;
use system_conf::System;
use updater_text::{Items, NoMemory};

/// How many bytes of an image are written at a time.
const PIECE: usize = 65_536;

/// What is made before the first step: the list of what is done, the ends of the jobs, and the buffer
/// for images.
#[derive(Drop)]
pub struct Prepared {
    pub acts: Items<Act>,
    pub ends: Items<JobEnd>,
    pub buffer: Vec<u8>,
}

// The end of the job at a place, before anything was done.
fn end_at(facts: &Facts, at: usize) -> JobEnd
    ensures { result ≡ spec.end_at (facts_content facts.entry.now) at }
{
    let slot = match facts.jobs.as_slice().get(at) {
        Some(job) => job.slot,
        None => 0,
    };
    let skipped = match facts.skipped.as_slice().get(at) {
        Some(skipped) => *skipped,
        None => false,
    };
    JobEnd {
        slot,
        skipped,
        written: None,
    }
}

fn ends_of(alloc: Global, facts: &Facts) -> Result<Items<JobEnd>, NoMemory>
    ensures { IfOk result (λ ends. ends ≡ spec.ends_of (facts_content facts.entry.now)) }
{
    let mut ends = Items::new(alloc);
    for at in 0..facts.jobs.as_slice().len() {
        ends.push(end_at(facts, at))?;
    }
    Ok(ends)
}

/// All that memory is taken for, so that no step fails for want of it later. The only error is out of
/// memory.
pub fn prepare(alloc: Global, system: &System, facts: &Facts) -> Result<Prepared, NoMemory>
    requires { AreSound (system_configuration system.now) (facts_content facts.now) }
    ensures { let c = system_configuration system.now in
        IfOk result (spec.IsPrepared c (facts_content facts.entry.now)) }
{
    let acts = acts_of(alloc, system, facts)?;
    let ends = ends_of(alloc, facts)?;
    let buffer = vec![in alloc; 0u8; PIECE]?;
    Ok(Prepared { acts, ends, buffer })
}
