ghost use Rattle.std.specs.Prelude.{◌≡◌, ◌==◌, IfOk, OnOk, not};
ghost use Rattle.std.specs.List.{list_any};
ghost use Rattle.system_conf.specs.Reads.{system_configuration};
ghost use Rattle.install_facts.specs.Facts.{facts_content};
ghost use Rattle.install_plan.specs.Acts as spec;

use crate::works::slot_at;
use install_facts::Facts;
use std::alloc::Global;
use system_conf::System;
use updater_text::{Items, NoMemory};

// Whether the root at a place has a bootname.
fn has_bootname(system: &System, root: usize) -> bool
    ensures { result ≡ spec.has_bootname (system_configuration system.now) root }
{
    match slot_at(system, root) {
        Some(slot) => slot.bootname.is_some(),
        None => false,
    }
}

// Whether a root does not stand among these yet.
fn is_new(roots: &[usize], root: usize) -> bool
    ensures { result ≡ not (list_any (λ r. r == root) roots.now) }
{
    !roots.contains(&root)
}

// Puts a root at the end, where it has a bootname and does not stand there yet.
fn push_root(roots: &mut Items<usize>, system: &System, root: usize) -> Result<(), NoMemory>
    ensures { let c = system_configuration system.now in
        OnOk result (roots.new ≡ spec.with_root c roots.old root) }
{
    if has_bootname(system, root) && is_new(roots.as_slice(), root) {
        roots.push(root)?;
    }
    Ok(())
}

/// The roots over the slots of the jobs that have a bootname, each once, in the order of their first
/// jobs.
pub fn target_roots(alloc: Global, system: &System, facts: &Facts) -> Result<Items<usize>, NoMemory>
    ensures { let c = system_configuration system.now in
        IfOk result (λ roots. roots ≡ spec.target_roots c (facts_content facts.entry.now)) }
{
    let mut roots = Items::new(alloc);
    for job in facts.jobs.as_slice() {
        push_root(&mut roots, system, job.root)?;
    }
    Ok(roots)
}
