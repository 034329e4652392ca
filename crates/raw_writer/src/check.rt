ghost use Rattle.std.specs.Prelude.{◌≡◌, IfOk, IsTrue, None, Ok, Some};
ghost use Rattle.std.specs.Option.{option_map};
ghost use Rattle.machine.specs.World.{length_under};
ghost use Rattle.machine.specs.Past.{Fails, world_now};
ghost use Rattle.machine.specs.Frames.{Unchanged};
ghost use Rattle.machine.specs.Stops.{Settles, StopCounted, stop_fault};
ghost use Rattle.raw_writer.specs.Checking.{AsksLengths, NoDigestRefused, SettlesLength, check_of, put_cause};
ghost use Rattle.raw_writer.specs.declared.check.PutRefusal.TheVariants.{ImageDigest};

use machine::{CallStop, Fault, Machine, Stop};
use std::alloc::Global;
use updater_text::{Digest, NoMemory, Text};

/// Why an image is not put on a device. Lengths are in bytes.
#[derive(Debug, Drop)]
pub enum PutRefusal {
    /// Nothing is at the image's path.
    NoImage { path: Text },
    /// The image has another length than stated.
    ImageSize { stated: u64, found: u64 },
    /// There is no such disk.
    NoDevice { path: Text },
    /// The image is longer than the device.
    ImageTooLarge { size: u64, device: u64 },
    /// The image that was written has another SHA-256 than stated.
    ImageDigest { stated: Digest, found: Digest },
}

// The words for a digest that differs.
fn digest_cause(
    alloc: Global,
    image: &str,
    stated: &Digest,
    found: &Digest,
) -> Result<Text, NoMemory>
    ensures { IfOk result (λ t. t ≡ put_cause image.now (ImageDigest stated.now found.now)) }
{
    let stated = stated.hex(alloc)?;
    let found = found.hex(alloc)?;
    let found = found.as_str();
    let stated = stated.as_str();
    let text = format!(in alloc; "image {image}: sha256 {found}, manifest says {stated}")?;
    Ok(Text::from_string(text))
}

/// A refusal in words, for the image under this path. It fails only when out of memory.
pub fn put_cause(alloc: Global, image: &str, refusal: &PutRefusal) -> Result<Text, NoMemory>
    ensures { IfOk result (λ t. t ≡ put_cause image.now refusal.now) }
{
    match refusal {
        PutRefusal::NoImage { path } => {
            let path = path.as_str();
            Ok(Text::from_string(format!(in alloc; "no image {path}")?))
        }
        PutRefusal::NoDevice { path } => {
            let path = path.as_str();
            Ok(Text::from_string(format!(in alloc; "no device {path}")?))
        }
        PutRefusal::ImageSize { stated, found } => {
            let text = format!(in alloc; "image {image}: {found} bytes, manifest says {stated}")?;
            Ok(Text::from_string(text))
        }
        PutRefusal::ImageTooLarge { size, device } => {
            let text = format!(in alloc;
                "image {image}: {size} bytes do not fit device of {device}"
            )?;
            Ok(Text::from_string(text))
        }
        PutRefusal::ImageDigest { stated, found } => digest_cause(alloc, image, stated, found),
    }
}

// The length of what is under the path.
fn size_under<M: Machine>(
    m: &mut M,
    path: &str,
    disk: bool,
) -> Result<Option<u64>, Stop<PutRefusal>>
    ensures unchanged { Unchanged M.tells (M.past m.old) (M.past m.new) }
    ensures answers { IsTrue M.tells → Settles result (Ok (length_under (world_now (M.past m.old)) path.now disk)) }
    ensures fails { Fails M.tells (M.past m.old) (M.past m.new) (stop_fault result) }
    ensures asks { AsksLengths M.tells (M.past m.old) (M.past m.new) }
    ensures digest { NoDigestRefused result }
    ensures counts { StopCounted (M.faults m.old) (M.faults m.new) (M.wants m.old) (M.wants m.new) result }
{
    match m.size(path, disk) {
        Ok(size) => Ok(size),
        Err(CallStop::Failed) => Err(Stop::Outside(Fault::Size)),
        Err(CallStop::NoMemory) => Err(Stop::NoMemory),
    }
}

// The size, where the device has room for it.
#[tactic(auto, using(machine::proofs::Joins::unchanged_join, machine::proofs::Failing::fails_join, crate::proofs::Asking::asks_join, crate::proofs::Asking::asks_none, crate::proofs::Asking::asks_size))]
fn check_room<M: Machine>(
    alloc: Global,
    m: &mut M,
    device: &str,
    size: u64,
) -> Result<u64, Stop<PutRefusal>>
    ensures unchanged { Unchanged M.tells (M.past m.old) (M.past m.new) }
    ensures answers { IsTrue M.tells → SettlesLength (world_now (M.past m.old)) size None (Some device.now) result }
    ensures fails { Fails M.tells (M.past m.old) (M.past m.new) (stop_fault result) }
    ensures asks { AsksLengths M.tells (M.past m.old) (M.past m.new) }
    ensures digest { NoDigestRefused result }
    ensures counts { StopCounted (M.faults m.old) (M.faults m.new) (M.wants m.old) (M.wants m.new) result }
{
    match size_under(m, device, true) {
        Ok(Some(room)) => {
            if size <= room {
                Ok(size)
            } else {
                Err(Stop::Refused(PutRefusal::ImageTooLarge { size, device: room }))
            }
        }
        Ok(None) => match Text::new(alloc, device) {
            Ok(path) => Err(Stop::Refused(PutRefusal::NoDevice { path })),
            Err(_) => Err(Stop::NoMemory),
        },
        Err(stop) => Err(stop),
    }
}

// The size, where the device that is named, if any, has room for it.
fn check_device<M: Machine>(
    alloc: Global,
    m: &mut M,
    device: Option<&str>,
    size: u64,
) -> Result<u64, Stop<PutRefusal>>
    ensures unchanged { Unchanged M.tells (M.past m.old) (M.past m.new) }
    ensures answers { IsTrue M.tells → SettlesLength (world_now (M.past m.old)) size None (option_map (λ d. d.now) device.entry) result }
    ensures fails { Fails M.tells (M.past m.old) (M.past m.new) (stop_fault result) }
    ensures asks { AsksLengths M.tells (M.past m.old) (M.past m.new) }
    ensures digest { NoDigestRefused result }
    ensures counts { StopCounted (M.faults m.old) (M.faults m.new) (M.wants m.old) (M.wants m.new) result }
{
    match device {
        Some(device) => check_room(alloc, m, device, size),
        None => Ok(size),
    }
}

// The size, where it is the stated one, if one is stated, and the device has room for it.
fn check_stated<M: Machine>(
    alloc: Global,
    m: &mut M,
    stated: Option<u64>,
    device: Option<&str>,
    size: u64,
) -> Result<u64, Stop<PutRefusal>>
    ensures unchanged { Unchanged M.tells (M.past m.old) (M.past m.new) }
    ensures answers { IsTrue M.tells → SettlesLength (world_now (M.past m.old)) size stated (option_map (λ d. d.now) device.entry) result }
    ensures fails { Fails M.tells (M.past m.old) (M.past m.new) (stop_fault result) }
    ensures asks { AsksLengths M.tells (M.past m.old) (M.past m.new) }
    ensures digest { NoDigestRefused result }
    ensures counts { StopCounted (M.faults m.old) (M.faults m.new) (M.wants m.old) (M.wants m.new) result }
{
    match stated {
        Some(stated) => {
            if stated == size {
                check_device(alloc, m, device, size)
            } else {
                Err(Stop::Refused(PutRefusal::ImageSize {
                    stated,
                    found: size,
                }))
            }
        }
        None => check_device(alloc, m, device, size),
    }
}

/// The length of an image in bytes. In this order: `NoImage` where its path names nothing,
/// `ImageSize` where a stated size differs from its length, `NoDevice` where a device is named and is
/// no disk, `ImageTooLarge` where the image is longer than that device.
#[tactic(auto, using(machine::proofs::Joins::unchanged_join, machine::proofs::Failing::fails_join, crate::proofs::Asking::asks_join, crate::proofs::Asking::asks_none, crate::proofs::Asking::asks_size))]
pub fn check_image<M: Machine>(
    alloc: Global,
    m: &mut M,
    image: &str,
    size: Option<u64>,
    device: Option<&str>,
) -> Result<u64, Stop<PutRefusal>>
    ensures unchanged { Unchanged M.tells (M.past m.old) (M.past m.new) }
    ensures answers { IsTrue M.tells → Settles result (check_of (world_now (M.past m.old)) image.now size (option_map (λ d. d.now) device.entry)) }
    ensures fails { Fails M.tells (M.past m.old) (M.past m.new) (stop_fault result) }
    ensures asks { AsksLengths M.tells (M.past m.old) (M.past m.new) }
    ensures digest { NoDigestRefused result }
    ensures counts { StopCounted (M.faults m.old) (M.faults m.new) (M.wants m.old) (M.wants m.new) result }
{
    match size_under(m, image, false) {
        Ok(Some(found)) => check_stated(alloc, m, size, device, found),
        Ok(None) => match Text::new(alloc, image) {
            Ok(path) => Err(Stop::Refused(PutRefusal::NoImage { path })),
            Err(_) => Err(Stop::NoMemory),
        },
        Err(stop) => Err(stop),
    }
}
