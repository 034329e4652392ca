ghost use Rattle.std.specs.Prelude.{◌≡◌, ◌≤◌, ◌<◌, ◌+◌, ◌++◌, [], ◌∷◌, length, map, vec_len, bytes_eq, codes, filter, IfOk, OnOk, OnErr};
ghost use Rattle.std.specs.Vec.{vec_capacity};
ghost use Rattle.std.specs.List.{list_any};
ghost use Rattle.machine.specs.Spares.{has_disk};
ghost use Rattle.machine.specs.Spares as machine_spec;
ghost use Rattle.updater_text.specs.Paths.{is_within};
ghost use Rattle.undo_log.specs.Effects.{after_effect};
ghost use Rattle.undo_log.specs.Effects as spec;
ghost use Rattle.undo_log.specs.Undo.{with_blanks_at, items_at, world_before_all, world_before_if};

use crate::changes::{child_write_change, put_change, take_back};
use crate::effect::Effect;
use crate::lookup::{bytes_of, has_room};
use crate::notes::Change;
use boot_model::Vars;
use machine::{Child, Ended, Exit, Named, RunNote, TryClone, World};
use std::alloc::Global;
use std::mem;
use updater_text::{Items, NoMemory, Text, is_within};

/// The file of the kernel's words, which every child leaves alone.
const KERNEL_WORDS: &str = "/proc/cmdline";

// Whether the path is among these.
fn is_among(paths: &[Text], path: &str) -> bool
    ensures { result ≡ list_any (λ p. bytes_eq p path.now) paths.now }
{
    paths.iter().any(|other| other.as_str() == path)
}

// Whether the path is one of these, or lies below one.
fn lies_in(places: &[Text], path: &str) -> bool
    ensures { result ≡ list_any (λ p. is_within p path.now) places.now }
{
    places.iter().any(|place| is_within(place.as_str(), path))
}

// Whether the child must leave the disk alone.
fn spares_disk(child: &Child, path: &str) -> bool
    ensures { result ≡ has_disk child.now.spares path.now }
{
    is_among(child.spares.disks.as_slice(), path)
}

// Whether the child must leave the file alone.
fn spares_file(child: &Child, path: &str) -> bool
    ensures { result ≡ machine_spec.spares_file child.now path.now }
{
    path == KERNEL_WORDS || lies_in(child.spares.files.as_slice(), path)
}

// Whether a file stays where those are dropped whose path begins so.
fn keeps_file(child: &Child, prefix: &str, path: &str) -> bool
    ensures { result ≡ spec.keeps_file child.now prefix.now path.now }
{
    spares_file(child, path) || !path.as_bytes().starts_with(prefix.as_bytes())
}

// Which of the files stay.
fn marks_of(
    alloc: Global,
    files: &[Named],
    child: &Child,
    prefix: &str,
) -> Result<Items<bool>, NoMemory>
    ensures { IfOk result (λ stays. stays ≡ map (λ n. spec.keeps_file child.now prefix.now n.path) files.now) }
{
    let mut stays = Items::new(alloc);
    for file in files {
        stays.push(keeps_file(child, prefix, file.path.as_str()))?;
    }
    Ok(stays)
}

// Takes a file, if it is marked, and leaves an empty one in its place.
fn take_file(alloc: Global, place: &mut Named, is_marked: bool, taken: &mut Vec<Named>)
    requires { vec_len taken.old < vec_capacity taken.old }
    ensures place { place.new ∷ [] ≡ with_blanks_at (is_marked ∷ []) (place.old ∷ []) }
    ensures taken { taken.new.items ≡ taken.old.items ++ items_at (is_marked ∷ []) (place.old ∷ []) }
    ensures count { vec_len taken.new ≤ vec_len taken.old + 1 }
    ensures room { vec_capacity taken.new ≡ vec_capacity taken.old }
{
    if is_marked {
        let empty = Named {
            path: Text::empty(alloc),
            bytes: Items::new(alloc),
        };
        taken.push_reserved(mem::replace(place, empty));
    }
}

// Takes the files that are marked, in their order, and leaves an empty one in the place of each.
fn take_files(alloc: Global, files: &mut [Named], marks: &[bool], taken: &mut Vec<Named>)
    requires as_many { length marks.now ≡ length files.old }
    requires none { taken.old.items ≡ [] }
    requires room { length files.old ≤ vec_capacity taken.old }
    ensures files { files.new ≡ with_blanks_at marks.now files.old }
    ensures taken { taken.new.items ≡ items_at marks.now files.old }
{
    for at in 0..files.len() {
        take_file(alloc, &mut files[at], marks[at], taken);
    }
}

// Puts a file, unless the child must leave it alone or a disk is there.
fn put_file(
    alloc: Global,
    world: &mut World,
    child: &Child,
    path: &str,
    bytes: &[u8],
) -> Result<Option<Change>, NoMemory>
    ensures ok { OnOk result (world.new ≡ spec.after_file_put child.now path.now bytes.now world.old) }
    ensures back { IfOk result (λ change. world_before_if change world.new ≡ world.old) }
    ensures err { OnErr result (world.new ≡ world.old) }
{
    if spares_file(child, path) || bytes_of(world.disks.as_slice(), path).is_some() {
        return Ok(None);
    }
    Ok(Some(put_change(alloc, world, path, bytes)?))
}

#[tactic(auto, unfolding(crate::specs::Effects::without_files))]
fn drop_files(
    alloc: Global,
    world: &mut World,
    child: &Child,
    prefix: &str,
) -> Result<Option<Change>, NoMemory>
    ensures ok { OnOk result (world.new ≡ spec.without_files world.old child.now prefix.now) }
    ensures back { IfOk result (λ change. world_before_if change world.new ≡ world.old) }
    ensures err { OnErr result (world.new ≡ world.old) }
{
    let stays = marks_of(alloc, world.files.as_slice(), child, prefix)?;
    let mut stayed = Vec::with_capacity(alloc, world.files.len())?;
    let files = world.files.as_mut_slice();
    take_files(alloc, files, stays.as_slice(), &mut stayed);
    let places = mem::replace(&mut world.files, Items::from_vec(stayed));
    Ok(Some(Change::Dropped { places, stays }))
}

// Writes a range of a disk, unless the child must leave the disk alone or the range doesn't lie on it.
fn write_disk(
    alloc: Global,
    world: &mut World,
    child: &Child,
    path: &str,
    at: u64,
    bytes: &[u8],
) -> Result<Option<Change>, NoMemory>
    ensures ok { OnOk result (world.new ≡ spec.after_disk_write child.now path.now at bytes.now world.old) }
    ensures back { IfOk result (λ change. world_before_if change world.new ≡ world.old) }
    ensures err { OnErr result (world.new ≡ world.old) }
{
    if spares_disk(child, path) || !has_room(world, path, at, bytes.len() as u64) {
        return Ok(None);
    }
    Ok(Some(child_write_change(alloc, world, path, at, bytes)?))
}

// Does one effect of a child; None where nothing is changed.
fn change_world(
    alloc: Global,
    world: &mut World,
    child: &Child,
    effect: &Effect,
) -> Result<Option<Change>, NoMemory>
    ensures ok { OnOk result (world.new ≡ after_effect child.now effect.now world.old) }
    ensures back { IfOk result (λ change. world_before_if change world.new ≡ world.old) }
    ensures err { OnErr result (world.new ≡ world.old) }
{
    match effect {
        Effect::PutFile { path, bytes } => {
            put_file(alloc, world, child, path.as_str(), bytes.as_slice())
        }
        Effect::DropFiles { prefix } => drop_files(alloc, world, child, prefix.as_str()),
        Effect::WriteDisk { path, at, bytes } => {
            write_disk(alloc, world, child, path.as_str(), *at, bytes.as_slice())
        }
    }
}

// Does one effect of a child, and adds the change to those before.
fn do_effect(
    alloc: Global,
    world: &mut World,
    child: &Child,
    effect: &Effect,
    changes: &mut Vec<Change>,
) -> Result<(), NoMemory>
    ensures ok { OnOk result (world.new ≡ after_effect child.now effect.now world.old) }
    ensures back { world_before_all changes.new.items world.new ≡ world_before_all changes.old.items world.old }
{
    changes.reserve(1)?;
    if let Some(change) = change_world(alloc, world, child, effect)? {
        changes.push_reserved(change);
    }
    Ok(())
}

// Does effects of a child in turn. Out of memory, it leaves those that were done among the changes.
fn do_effects(
    alloc: Global,
    world: &mut World,
    child: &Child,
    effects: &[Effect],
    changes: &mut Vec<Change>,
) -> Result<(), NoMemory>
    ensures ok { OnOk result (world.new ≡ spec.after_effects child.now effects.now world.old) }
    ensures back { world_before_all changes.new.items world.new ≡ world_before_all changes.old.items world.old }
{
    for effect in effects {
        do_effect(alloc, world, child, effect, changes)?;
    }
    Ok(())
}

// Does effects of a child in turn, or takes them and the changes before them back.
fn do_all_or_none(
    alloc: Global,
    world: &mut World,
    child: &Child,
    effects: &[Effect],
    mut changes: Vec<Change>,
) -> Result<Items<Change>, NoMemory>
    ensures ok { OnOk result (world.new ≡ spec.after_effects child.now effects.now world.old) }
    ensures back { IfOk result (λ done. world_before_all done world.new ≡ world_before_all changes.items world.old) }
    ensures err { OnErr result (world.new ≡ world_before_all changes.items world.old) }
{
    match do_effects(alloc, world, child, effects, &mut changes) {
        Ok(()) => Ok(Items::from_vec(changes)),
        Err(NoMemory) => {
            take_back(world, changes);
            Err(NoMemory)
        }
    }
}

// Adds a child and its end to the runs.
fn push_run(
    alloc: Global,
    runs: &mut Items<RunNote>,
    child: &Child,
    exit: &Exit,
) -> Result<(), NoMemory>
    ensures ok { OnOk result (runs.new ≡ runs.old ++ record { child = child.now; exit = exit.now } ∷ []) }
    ensures err { OnErr result (runs.new ≡ runs.old) }
{
    let child = child.try_clone(alloc)?;
    let exit = exit.try_clone(alloc)?;
    runs.push(RunNote { child, exit })?;
    Ok(())
}

/// Adds a child to the runs, and does its effects: all or none.
#[tactic(auto, unfolding(crate::specs::Effects::with_run))]
pub fn run(
    alloc: Global,
    world: &mut World,
    child: &Child,
    exit: &Exit,
    effects: &[Effect],
) -> Result<Items<Change>, NoMemory>
    ensures ok { OnOk result (world.new ≡ spec.after_effects child.now effects.now (spec.with_run world.old child.now exit.now)) }
    ensures back { IfOk result (λ changes. world_before_all changes world.new ≡ world.old) }
    ensures err { OnErr result (world.new ≡ world.old) }
{
    let mut changes = Vec::with_capacity(alloc, 1)?;
    push_run(alloc, &mut world.runs, child, exit)?;
    changes.push_reserved(Change::Ran);
    do_all_or_none(alloc, world, child, effects, changes)
}

/// Adds a boot program to the runs, and gives the boot variables these values where it ended with 0.
#[tactic(auto, unfolding(crate::specs::Effects::with_boot_run))]
pub fn run_boot(
    alloc: Global,
    world: &mut World,
    child: &Child,
    exit: &Exit,
    vars: Vars,
) -> Result<Items<Change>, NoMemory>
    ensures ok { OnOk result (world.new ≡ spec.with_boot_run world.old child.now exit.now vars) }
    ensures back { IfOk result (λ changes. world_before_all changes world.new ≡ world.old) }
    ensures err { OnErr result (world.new ≡ world.old) }
{
    let mut changes = Vec::with_capacity(alloc, 2)?;
    push_run(alloc, &mut world.runs, child, exit)?;
    changes.push_reserved(Change::Ran);
    if exit.ended == Ended::Code(0) {
        let vars = mem::replace(&mut world.vars, vars);
        changes.push_reserved(Change::Varied { vars });
    }
    Ok(Items::from_vec(changes))
}
