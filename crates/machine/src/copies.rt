ghost use Rattle.std.specs.Prelude.{◌≡◌, IfOk};

use crate::{Child, EnvVar, Exit, Named, RunNote, Span, Spares, World};
use std::alloc::Global;
use updater_text::{Items, NoMemory, Text};

/// What can be copied where memory suffices.
pub trait TryClone {
    /// The same once more.
    fn try_clone(&self, alloc: Global) -> Result<Self, NoMemory>
    where
        Self: Sized,
        ensures { IfOk result (λ copy. copy ≡ self.now) };
}

/// The same items once more.
pub fn copy_items<T: TryClone + Drop>(alloc: Global, items: &Items<T>) -> Result<Items<T>, NoMemory>
    ensures { IfOk result (λ copy. copy ≡ items.now) }
{
    let mut copy = Items::new(alloc);
    let slice = items.as_slice();
    for item in slice {
        copy.push(item.try_clone(alloc)?)?;
    }
    Ok(copy)
}

/// The same bytes once more.
pub fn copy_bytes(alloc: Global, bytes: &[u8]) -> Result<Items<u8>, NoMemory>
    ensures { IfOk result (λ copy. copy ≡ bytes.now) }
{
    Ok(Items::from_vec(Vec::from_slice(alloc, bytes)?))
}

impl TryClone for Text {
    fn try_clone(&self, alloc: Global) -> Result<Text, NoMemory> {
        self.copy(alloc)
    }
}

impl TryClone for Named {
    fn try_clone(&self, alloc: Global) -> Result<Named, NoMemory> {
        Ok(Named {
            path: self.path.copy(alloc)?,
            bytes: copy_bytes(alloc, self.bytes.as_slice())?,
        })
    }
}

impl TryClone for Span {
    fn try_clone(&self, alloc: Global) -> Result<Span, NoMemory> {
        Ok(Span {
            path: self.path.copy(alloc)?,
            at: self.at,
            length: self.length,
        })
    }
}

impl TryClone for EnvVar {
    fn try_clone(&self, alloc: Global) -> Result<EnvVar, NoMemory> {
        Ok(EnvVar {
            name: self.name.copy(alloc)?,
            value: self.value.copy(alloc)?,
        })
    }
}

impl TryClone for Spares {
    fn try_clone(&self, alloc: Global) -> Result<Spares, NoMemory> {
        Ok(Spares {
            disks: copy_items(alloc, &self.disks)?,
            files: copy_items(alloc, &self.files)?,
            boot: self.boot,
        })
    }
}

impl TryClone for Child {
    fn try_clone(&self, alloc: Global) -> Result<Child, NoMemory> {
        Ok(Child {
            class: self.class,
            program: self.program.copy(alloc)?,
            args: copy_items(alloc, &self.args)?,
            env: copy_items(alloc, &self.env)?,
            spares: self.spares.try_clone(alloc)?,
        })
    }
}

impl TryClone for Exit {
    fn try_clone(&self, alloc: Global) -> Result<Exit, NoMemory> {
        Ok(Exit {
            ended: self.ended,
            out: copy_bytes(alloc, self.out.as_slice())?,
            err: copy_bytes(alloc, self.err.as_slice())?,
            cut: self.cut,
        })
    }
}

impl TryClone for RunNote {
    fn try_clone(&self, alloc: Global) -> Result<RunNote, NoMemory> {
        Ok(RunNote {
            child: self.child.try_clone(alloc)?,
            exit: self.exit.try_clone(alloc)?,
        })
    }
}

impl TryClone for World {
    fn try_clone(&self, alloc: Global) -> Result<World, NoMemory> {
        Ok(World {
            disks: copy_items(alloc, &self.disks)?,
            pending: copy_items(alloc, &self.pending)?,
            writes: copy_items(alloc, &self.writes)?,
            files: copy_items(alloc, &self.files)?,
            vars: self.vars.copy()?,
            runs: copy_items(alloc, &self.runs)?,
            fetched: self.fetched,
        })
    }
}
