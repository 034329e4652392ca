ghost use Rattle.std.specs.Prelude.{if◌then◌else◌, ◌≡◌, ◌+◌, ◌<◌, ◌≤◌, ◌^◌, ◌++◌, [], ◌∷◌, ℕ, List, Some, None, length, take, drop, filter, not, bytes_eq, unwrap_or, IfOk, IfErr, OnOk, OnErr};
ghost use Rattle.machine.specs.World.{HoldsUpTo, bytes_under, disk, with_fetched, with_file, patch_under, patch_at, put_under, with_write};
ghost use Rattle.undo_log.specs.Effects.{with_child_write};
ghost use Rattle.undo_log.specs.Halves as spec_half;
ghost use Rattle.undo_log.specs.Undo as spec;
ghost use Rattle.undo_log.specs.declared.notes.Change.TheVariants as change;
ghost use Rattle.std.specs.Vec.{vec_capacity};
ghost use Rattle.std.specs.Vec.Iter.{into_iter_items};

use crate::lookup::{bytes_of, find, has_room};
use crate::notes::Change;
use machine::{Named, Span, World, copy_bytes};
use std::alloc::Global;
use std::mem;
use std::vec::IntoIter;
use updater_text::{Items, NoMemory, Text};

// Puts bytes in place of others from an offset on.
fn patch(bytes: &mut [u8], at: usize, from: &[u8])
    requires { at + length from.now ≤ length bytes.old }
    ensures { bytes.new ≡ patch_at bytes.old at from.now }
{
    bytes[at..at + from.len()].copy_from_slice(from);
}

// The same to the bytes under a path.
fn patch_list(list: &mut [Named], path: &str, at: usize, from: &[u8])
    requires { (bytes : List ℕ) × (bytes_under list.old path.now ≡ Some bytes) × (at + length from.now ≤ length bytes) }
    ensures { list.new ≡ patch_under list.old path.now at from.now }
{
    if let Some(place) = find(list, path) {
        let named = &mut list[place];
        patch(named.bytes.as_mut_slice(), at, from);
    }
}

// The spans that are not of the path, once more.
fn besides(alloc: Global, spans: &[Span], path: &str) -> Result<Items<Span>, NoMemory>
    ensures { IfOk result (λ others. others ≡ filter (λ s. not (bytes_eq s.path path.now)) spans.now) }
{
    let mut others = Items::new(alloc);
    for span in spans {
        if span.path.as_str() != path {
            others.push(Span {
                path: span.path.copy(alloc)?,
                at: span.at,
                length: span.length,
            })?;
        }
    }
    Ok(others)
}

/// The pending ranges of other disks, once more.
pub fn spans_besides(alloc: Global, world: &World, path: &str) -> Result<Items<Span>, NoMemory>
    ensures { IfOk result (λ others. others ≡ filter (λ s. not (bytes_eq s.path path.now)) world.now.pending) }
{
    besides(alloc, world.pending.as_slice(), path)
}

/// A range of the bytes under a path, once more.
pub fn copy_range(
    alloc: Global,
    list: &[Named],
    path: &str,
    at: usize,
    count: usize,
) -> Result<Items<u8>, NoMemory>
    requires { (bytes : List ℕ) × (bytes_under list.now path.now ≡ Some bytes) × (at + count ≤ length bytes) }
    ensures { IfOk result (λ range. range ≡ take count (drop at (unwrap_or (bytes_under list.now path.now) []))) }
{
    match bytes_of(list, path) {
        Some(bytes) => copy_bytes(alloc, &bytes[at..at + count]),
        None => Ok(Items::new(alloc)),
    }
}

/// The first half of new bytes, and the second half of old ones.
pub fn half_new(alloc: Global, new: &[u8], old: &[u8]) -> Result<Items<u8>, NoMemory>
    requires { length old.now ≡ length new.now }
    ensures { IfOk result (λ bytes. bytes ≡ spec_half.half_new new.now old.now) }
{
    let half = new.len() / 2;
    let mut bytes = Vec::from_slice(alloc, &new[..half])?;
    bytes.extend_from_slice(&old[half..])?;
    Ok(Items::from_vec(bytes))
}

fn make_span(alloc: Global, path: &str, at: u64, count: u64) -> Result<Span, NoMemory>
    ensures { IfOk result (λ s. s ≡ record { path = path.now; at = at; length = count }) }
{
    Ok(Span {
        path: Text::new(alloc, path)?,
        at,
        length: count,
    })
}

// Puts a span at the end of each of two lists, or of none.
fn push_both(
    pending: &mut Items<Span>,
    writes: &mut Items<Span>,
    first: Span,
    second: Span,
) -> Result<(), NoMemory>
    ensures ok { OnOk result ((pending.new ≡ pending.old ++ first ∷ []) × (writes.new ≡ writes.old ++ second ∷ [])) }
    ensures err { OnErr result ((pending.new ≡ pending.old) × (writes.new ≡ writes.old)) }
{
    pending.push(first)?;
    if writes.push(second).is_err() {
        let _ = pending.pop();
        return Err(NoMemory);
    }
    Ok(())
}

// Writes a range of a disk.
#[tactic(auto, unfolding(machine::specs::World::with_write))]
fn write(alloc: Global, world: &mut World, path: &str, at: u64, from: &[u8]) -> Result<(), NoMemory>
    requires { HoldsUpTo world.old path.now (at + length from.now) }
    ensures ok { OnOk result (world.new ≡ with_write world.old path.now at from.now) }
    ensures err { OnErr result (world.new ≡ world.old) }
{
    let count = from.len() as u64;
    let first = make_span(alloc, path, at, count)?;
    let second = make_span(alloc, path, at, count)?;
    push_both(&mut world.pending, &mut world.writes, first, second)?;
    patch_list(world.disks.as_mut_slice(), path, at as usize, from);
    Ok(())
}

// Writes a range of a disk as a child does.
#[tactic(auto, unfolding(crate::specs::Effects::with_child_write))]
fn child_write(
    alloc: Global,
    world: &mut World,
    path: &str,
    at: u64,
    from: &[u8],
) -> Result<(), NoMemory>
    requires { HoldsUpTo world.old path.now (at + length from.now) }
    ensures ok { OnOk result (world.new ≡ with_child_write world.old path.now at from.now) }
    ensures err { OnErr result (world.new ≡ world.old) }
{
    let span = make_span(alloc, path, at, from.len() as u64)?;
    world.pending.push(span)?;
    patch_list(world.disks.as_mut_slice(), path, at as usize, from);
    Ok(())
}

/// Writes a range of a disk, and answers the change.
pub fn write_change(
    alloc: Global,
    world: &mut World,
    path: &str,
    at: u64,
    from: &[u8],
) -> Result<Change, NoMemory>
    requires { HoldsUpTo world.old path.now (at + length from.now) }
    ensures ok { OnOk result (world.new ≡ with_write world.old path.now at from.now) }
    ensures back { IfOk result (λ change. spec.world_before change world.new ≡ world.old) }
    ensures err { OnErr result (world.new ≡ world.old) }
{
    let path_copy = Text::new(alloc, path)?;
    let disks = world.disks.as_slice();
    let replaced = copy_range(alloc, disks, path, at as usize, from.len())?;
    write(alloc, world, path, at, from)?;
    Ok(Change::Wrote {
        path: path_copy,
        at,
        replaced,
    })
}

/// Writes a range of a disk as a child does, and answers the change.
pub fn child_write_change(
    alloc: Global,
    world: &mut World,
    path: &str,
    at: u64,
    from: &[u8],
) -> Result<Change, NoMemory>
    requires { HoldsUpTo world.old path.now (at + length from.now) }
    ensures ok { OnOk result (world.new ≡ with_child_write world.old path.now at from.now) }
    ensures back { IfOk result (λ change. spec.world_before change world.new ≡ world.old) }
    ensures err { OnErr result (world.new ≡ world.old) }
{
    let path_copy = Text::new(alloc, path)?;
    let disks = world.disks.as_slice();
    let replaced = copy_range(alloc, disks, path, at as usize, from.len())?;
    child_write(alloc, world, path, at, from)?;
    Ok(Change::ChildWrote {
        path: path_copy,
        at,
        replaced,
    })
}

/// Counts what was read of a file, and gives the change back among the changes, which have room for
/// it.
#[tactic(auto, unfolding(machine::specs::World::with_fetched))]
pub fn count_read(
    world: &mut World,
    path: &str,
    count: u64,
    mut changes: Vec<Change>,
) -> Items<Change>
    requires small { world.old.fetched + count < 2 ^ 128 }
    requires room { 0 < vec_capacity changes }
    requires empty { changes.items ≡ [] }
    ensures world { world.new ≡ with_fetched world.old path.now count }
    ensures changes { result ≡ spec.changes_of_read world.old path.now count }
{
    if bytes_of(world.disks.as_slice(), path).is_none() {
        world.fetched += u128::from(count);
        changes.push_reserved(Change::Fetched { count });
    }
    Items::from_vec(changes)
}

// Gives the bytes under a path for others; hands those back where nothing is under it.
fn swap_under(list: &mut [Named], path: &str, bytes: Items<u8>) -> Result<Items<u8>, Items<u8>>
    ensures list { list.new ≡ spec.replace_under list.old path.now bytes }
    ensures ok { IfOk result (λ was. bytes_under list.old path.now ≡ Some was) }
    ensures err { IfErr result (λ given. (given ≡ bytes) × (bytes_under list.old path.now ≡ None)) }
{
    match find(list, path) {
        Some(place) => {
            let named = &mut list[place];
            Ok(mem::replace(&mut named.bytes, bytes))
        }
        None => Err(bytes),
    }
}

// Puts bytes under a path of a list, and answers those that were there.
fn put(
    alloc: Global,
    list: &mut Items<Named>,
    path: &str,
    bytes: Items<u8>,
) -> Result<Option<Items<u8>>, NoMemory>
    ensures ok { OnOk result (list.new ≡ put_under list.old path.now bytes) }
    ensures back { IfOk result (λ was. spec.files_before_put list.new path.now was ≡ list.old) }
    ensures err { OnErr result (list.new ≡ list.old) }
{
    let path_copy = Text::new(alloc, path)?;
    match swap_under(list.as_mut_slice(), path, bytes) {
        Ok(replaced) => Ok(Some(replaced)),
        Err(bytes) => {
            list.push(Named {
                path: path_copy,
                bytes,
            })?;
            Ok(None)
        }
    }
}

/// Puts a file, and answers the change.
#[tactic(auto, unfolding(machine::specs::World::with_file))]
pub fn put_change(
    alloc: Global,
    world: &mut World,
    path: &str,
    bytes: &[u8],
) -> Result<Change, NoMemory>
    ensures ok { OnOk result (world.new ≡ with_file world.old path.now bytes.now) }
    ensures back { IfOk result (λ change. spec.world_before change world.new ≡ world.old) }
    ensures err { OnErr result (world.new ≡ world.old) }
{
    let path_copy = Text::new(alloc, path)?;
    let bytes = copy_bytes(alloc, bytes)?;
    let replaced = put(alloc, &mut world.files, path, bytes)?;
    Ok(Change::Put {
        path: path_copy,
        replaced,
    })
}

// Puts bytes of a disk back, where their range lies on it.
fn put_back(world: &mut World, path: &str, at: u64, bytes: &[u8])
    ensures { world.new ≡ spec.with_bytes world.old path.now at bytes.now }
{
    if has_room(world, path, at, bytes.len() as u64) {
        patch_list(world.disks.as_mut_slice(), path, at as usize, bytes);
    }
}

// Takes a write of a child back.
fn undo_child_write(world: &mut World, path: Text, at: u64, replaced: Items<u8>)
    ensures { world.new ≡ spec.world_before (change.ChildWrote path at replaced) world.old }
{
    put_back(world, path.as_str(), at, replaced.as_slice());
    let _ = world.pending.pop();
}

// Takes a write back.
fn undo_write(world: &mut World, path: Text, at: u64, replaced: Items<u8>)
    ensures { world.new ≡ spec.world_before (change.Wrote path at replaced) world.old }
{
    undo_child_write(world, path, at, replaced);
    let _ = world.writes.pop();
}

// Puts a file back that was replaced, or takes the last one away.
fn undo_put(world: &mut World, path: Text, replaced: Option<Items<u8>>)
    ensures { world.new ≡ spec.world_before (change.Put path replaced) world.old }
{
    match replaced {
        None => {
            let _ = world.files.pop();
        }
        Some(bytes) => {
            let _ = swap_under(world.files.as_mut_slice(), path.as_str(), bytes);
        }
    }
}

// Puts the next of the files into a place, if that is marked.
fn fill_place(place: &mut Named, is_marked: bool, files: &mut IntoIter<Named>)
    ensures place { place.new ∷ [] ≡ spec.with_files_at (is_marked ∷ []) (place.old ∷ []) (into_iter_items files.old) }
    ensures files { into_iter_items files.new ≡ (if is_marked then drop 1 (into_iter_items files.old) else into_iter_items files.old) }
{
    if is_marked {
        if let Some(file) = files.next() {
            *place = file;
        }
    }
}

// Puts files, in their order, into the places that are marked.
fn fill_places(places: &mut [Named], marks: &[bool], files: Items<Named>)
    ensures { places.new ≡ spec.with_files_at marks.now places.old files }
{
    let mut files = files.into_vec().into_iter();
    let count = places.len().min(marks.len());
    for at in 0..count {
        fill_place(&mut places[at], marks[at], &mut files);
    }
}

// Puts files back that were dropped.
fn undo_drop(world: &mut World, places: Items<Named>, stays: Items<bool>)
    ensures { world.new ≡ spec.world_before (change.Dropped places stays) world.old }
{
    let stayed = mem::replace(&mut world.files, places);
    fill_places(world.files.as_mut_slice(), stays.as_slice(), stayed);
}

// Takes a change back.
fn undo(world: &mut World, change: Change)
    ensures { world.new ≡ spec.world_before change world.old }
{
    match change {
        Change::Fetched { count } => {
            world.fetched = world.fetched.saturating_sub(u128::from(count));
        }
        Change::Wrote { path, at, replaced } => undo_write(world, path, at, replaced),
        Change::ChildWrote { path, at, replaced } => undo_child_write(world, path, at, replaced),
        Change::Synced { pending } => world.pending = pending,
        Change::Put { path, replaced } => undo_put(world, path, replaced),
        Change::Dropped { places, stays } => undo_drop(world, places, stays),
        Change::Ran => {
            let _ = world.runs.pop();
        }
        Change::Varied { vars } => world.vars = vars,
    }
}

/// Takes changes back, the last one first.
pub fn take_back(world: &mut World, mut changes: Vec<Change>)
    ensures { world.new ≡ spec.world_before_all changes.items world.old }
{
    while let Some(change) = changes.pop() {
        undo(world, change);
    }
}
