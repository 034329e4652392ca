ghost use Rattle.std.specs.Prelude.{◌≡◌, OnOk, OnErr, IfOk, slice_get};
ghost use Rattle.std.specs.Option.{option_copied};
ghost use Rattle.std.specs.BTreeMap.{keys, IsOrdered};
ghost use Rattle.std.specs.String.{string_cmp};
ghost use Rattle.std.specs.FinMap as map;

use std::alloc::Global;
use std::collections::BTreeMap;
use std::marker::Model;
use updater_text::NoMemory;

/// The variables of a boot loader, which contracts see as a finite map from names to values. Names
/// ascend by their bytes.
#[derive(Drop)]
pub struct Vars {
    settings: BTreeMap<String, String>,
    alloc: Global,
}

impl Model for Vars {
    ghost use Rattle.std.specs.FinMap as map;
    ghost use Rattle.std.specs.Coded.{coded_ℕ, coded_list};
    ghost use Rattle.boot_model.specs.Vars.{Variables, shown};

    ghost Value = { Variables };

    ghost coded = { map.code (coded_list coded_ℕ) (coded_list coded_ℕ) };

    ghost view = { λ v. shown v.settings };
}

impl Vars {
    /// No variables. It takes no memory.
    pub fn new(alloc: Global) -> Vars
        ensures { result ≡ map.empty }
    {
        Vars {
            settings: BTreeMap::new(alloc),
            alloc,
        }
    }

    /// The value of the variable with this name; None where there is none. It takes no memory.
    pub fn get(&self, name: &str) -> Option<&str>
        ensures { option_copied result ≡ map.get self.now name.now }
    {
        let value = self.settings.get(name)?;
        Some(value.as_str())
    }

    /// Gives the variable with this name the value, whether it was there or not. Out of memory, it
    /// leaves the variables as they are.
    pub fn set(&mut self, name: &str, value: &str) -> Result<(), NoMemory>
        ensures ok { OnOk result (self.new ≡ map.insert self.old name.now value.now) }
        ensures err { OnErr result (self.new ≡ self.old) }
    {
        let name = String::from_str(self.alloc, name)?;
        let value = String::from_str(self.alloc, value)?;
        self.settings.insert(name, value)?;
        Ok(())
    }

    /// Takes the variable with this name away, where there is one. It takes no memory.
    pub fn remove(&mut self, name: &str)
        ensures { self.new ≡ map.remove self.old name.now }
    {
        self.settings.remove(name);
    }

    /// How many variables there are. It takes no memory.
    pub fn len(&self) -> usize
        ensures { result ≡ map.len self.now }
    {
        self.settings.len()
    }

    /// The name at this place, counted from 0, of the names in ascending order; None where `at` is
    /// not below `len`. It takes no memory.
    pub fn name(&self, at: usize) -> Option<&str>
        ensures { option_copied result ≡ slice_get (map.keys self.now) at }
    {
        let name = key_at(&self.settings, at)?;
        Some(name.as_str())
    }

    /// The same variables once more.
    pub fn copy(&self) -> Result<Vars, NoMemory>
        ensures { IfOk result (λ copied. copied ≡ self.now) }
    {
        let settings = self.settings.clone()?;
        Ok(Vars {
            settings,
            alloc: self.alloc,
        })
    }
}

// The key at this place of the keys in ascending order.
fn key_at(settings: &BTreeMap<String, String>, at: usize) -> Option<&String>
    ensures key { option_copied result ≡ slice_get (keys settings.now) at }
    ensures ordered { IsOrdered string_cmp settings.now }
{
    settings.keys().nth(at)
}
