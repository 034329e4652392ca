ghost use Rattle.std.specs.Prelude.{◌≡◌, ◌∷◌, [], IfOk, length};
ghost use Rattle.std.specs.Prelude.{option_and_then, option_map, slice_get};
ghost use Rattle.updater_text.specs.Answers.{Gives};
ghost use Rattle.manifest.specs.Reads.{image_content, image_contents};
ghost use Rattle.slot_graph.specs.Jobs as spec;

use crate::archive::is_archive_name;
use crate::target::targets;
use crate::{Job, SlotState};
use manifest::Image;
use std::alloc::Global;
use system_conf::{Slot, SlotKind, System, root_of};
use updater_text::{Items, Lack, NoMemory, Text};

/// Why an image goes to no slot. Slots and images are named by their places.
#[derive(Debug, Drop)]
pub enum AssignRefusal {
    /// No slot of the image's class lies under a target.
    NoTarget { class: Text },
    /// More than one slot of the image's class lies under a target.
    ManyTargets { class: Text },
    /// The slot is configured so that nothing is written to it.
    ReadOnly { slot: usize },
    /// The image's file, which has this name, is an archive by it, and no hook installs the image.
    ArchiveImage { image: usize, name: Text },
    /// The slot's type is not written to, and no hook installs the image.
    WrongType { slot: usize, image: usize },
}

// Whether the slot at a place is of this class.
fn is_of_class(slots: &[Slot], class: &str, at: usize) -> bool
    ensures { result ≡ spec.is_of_class slots.now class.now at }
{
    match slots.get(at) {
        Some(slot) => slot.class.as_str() == class,
        None => false,
    }
}

// Whether the slot at a place lies under one of the targets.
fn in_target_group(slots: &[Slot], targets: &[usize], at: usize) -> bool
    ensures { result ≡ spec.in_target_group slots.now targets.now at }
{
    let root = root_of(slots, at);
    targets.iter().any(|target| *target == root)
}

// The places of the slots of a class in the groups of the targets, in slot order.
#[tactic(auto, unfolding(crate::specs::Jobs::places_for))]
fn places_for(
    alloc: Global,
    slots: &[Slot],
    targets: &[usize],
    class: &str,
) -> Result<Vec<usize>, NoMemory>
    ensures { IfOk result
        (λ places. places.items ≡ spec.places_for slots.now targets.now class.now) }
{
    let places = (0..slots.len()).filter(|at| is_of_class(slots, class, *at)
        && in_target_group(slots, targets, *at));
    Ok(places.collect(alloc)?)
}

// The name of an image's file, where that is an archive by it.
fn archive_name(image: &Image) -> Option<&Text>
    ensures { option_map (λ name. name.now) result
        ≡ spec.archive_name (image_content image.entry.now) }
{
    match &image.file {
        Some(file) if is_archive_name(file.name.as_bytes()) => Some(&file.name),
        _ => None,
    }
}

// Why the image is not written to the slot, each named by its place.
fn write_refusal(
    alloc: Global,
    at: usize,
    image: &Image,
    place: usize,
    slot: &Slot,
) -> Result<Option<AssignRefusal>, NoMemory>
    ensures { IfOk result
        (λ why. why ≡ spec.write_refusal at (image_content image.now) place slot.now) }
{
    if let Some(name) = archive_name(image) {
        let name = name.copy(alloc)?;
        return Ok(Some(AssignRefusal::ArchiveImage { image: at, name }));
    }
    match slot.kind {
        SlotKind::Unwritten(_) => Ok(Some(AssignRefusal::WrongType {
            slot: place,
            image: at,
        })),
        _ => Ok(None),
    }
}

// Why it does not go there.
fn refusal_for(
    alloc: Global,
    at: usize,
    image: &Image,
    place: usize,
    slot: &Slot,
) -> Result<Option<AssignRefusal>, NoMemory>
    ensures { IfOk result
        (λ why. why ≡ spec.refusal_for at (image_content image.now) place slot.now) }
{
    if slot.readonly {
        return Ok(Some(AssignRefusal::ReadOnly { slot: place }));
    }
    if image.install {
        return Ok(None);
    }
    write_refusal(alloc, at, image, place, slot)
}

// The same for the slot at that place.
fn refusal_at(
    alloc: Global,
    slots: &[Slot],
    at: usize,
    image: &Image,
    place: usize,
) -> Result<Option<AssignRefusal>, NoMemory>
    ensures { let refusal = spec.refusal_for at (image_content image.now) place in
        IfOk result (λ why. why ≡ option_and_then refusal (slice_get slots.now place)) }
{
    match slots.get(place) {
        Some(slot) => refusal_for(alloc, at, image, place, slot),
        None => Ok(None),
    }
}

// The job that puts the image into that slot, unless it is refused.
fn job_in(
    alloc: Global,
    slots: &[Slot],
    at: usize,
    image: &Image,
    place: usize,
) -> Result<Job, Lack<AssignRefusal>>
    ensures { Gives result (spec.job_among slots.now at (image_content image.now) (place ∷ [])) }
{
    match refusal_at(alloc, slots, at, image, place)? {
        Some(why) => Err(Lack::Refused(why)),
        None => Ok(Job {
            image: at,
            slot: place,
            root: root_of(slots, place),
        }),
    }
}

fn no_target(alloc: Global, class: &Text) -> Result<Job, Lack<AssignRefusal>>
    ensures { Gives result (Err (AssignRefusal.NoTarget class.now)) }
{
    let class = class.copy(alloc)?;
    Err(Lack::Refused(AssignRefusal::NoTarget { class }))
}

fn many_targets(alloc: Global, class: &Text) -> Result<Job, Lack<AssignRefusal>>
    ensures { Gives result (Err (AssignRefusal.ManyTargets class.now)) }
{
    let class = class.copy(alloc)?;
    Err(Lack::Refused(AssignRefusal::ManyTargets { class }))
}

// The job of the image at a place.
#[tactic(auto, unfolding(crate::specs::Jobs::job_of))]
fn job_of(
    alloc: Global,
    slots: &[Slot],
    targets: &[usize],
    at: usize,
    image: &Image,
) -> Result<Job, Lack<AssignRefusal>>
    ensures { Gives result (spec.job_of slots.now targets.now at (image_content image.now)) }
{
    let places = places_for(alloc, slots, targets, image.class.as_str())?;
    match places.as_slice() {
        [] => no_target(alloc, &image.class),
        [place] => job_in(alloc, slots, at, image, *place),
        _ => many_targets(alloc, &image.class),
    }
}

// The jobs of all images, or the refusal of the first that has none.
fn jobs_of(
    alloc: Global,
    slots: &[Slot],
    targets: &[usize],
    images: &[Image],
) -> Result<Vec<Job>, Lack<AssignRefusal>>
    ensures { let meaning = spec.jobs_of slots.now targets.now (image_contents images.now) in
        spec.AssignsAll meaning result }
{
    let mut jobs = Items::new(alloc);
    for (at, image) in images.iter().enumerate() {
        let job = job_of(alloc, slots, targets, at, image)?;
        jobs.push(job)?;
    }
    Ok(jobs.into_vec())
}

/// Which image goes to which slot: each to the one slot of its class that lies under a target, in
/// the order of the images. The first image that goes to none is refused, in this order: `NoTarget`
/// where no slot of its class lies under a target, and `ManyTargets` where more than one does;
/// `ReadOnly` where the slot is; and, unless a hook installs the image, `ArchiveImage` where its
/// file is an archive by its name, and `WrongType` where the slot's type is not written to.
pub fn assign(
    alloc: Global,
    system: &System,
    states: &[SlotState],
    images: &[Image],
) -> Result<Vec<Job>, Lack<AssignRefusal>>
    requires { length states.now ≡ length system.now.slots }
    ensures assigns { let contents = image_contents images.now in
        spec.AssignsAll (spec.assigned system.now.slots states.now contents) result }
    ensures places { let contents = image_contents images.now in
        IfOk result (λ jobs. spec.ArePlaced system.now.slots states.now contents jobs.items) }
{
    let targets = targets(alloc, system, states)?;
    jobs_of(alloc, system.slots.as_slice(), targets.as_slice(), images)
}
