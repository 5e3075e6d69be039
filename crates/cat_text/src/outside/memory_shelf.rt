//! A shelf in memory, whose calls fail by a plan.
ghost use Rattle.std.specs.Prelude.{◌≡◌, ◌≢◌, ◌↔◌, [], Some, IfOk, OnOk, OnErr};
ghost use Rattle.std.specs.FinMap.{empty, get, insert};
ghost use Rattle.cat_text.specs.OutsideMemory.{IsNextToFail, after_call, after_fault};
ghost use Rattle.cat_text.specs.Shelves.{content};

use super::fault::OutsideFault;
use super::plan::FaultPlan;
use super::shelf::{LoadFault, SaveFault, Shelf};
use std::alloc::Global;
use std::collections::BTreeMap;
use std::marker::Model;

/// Files in memory. A call that fails changes no file.
#[derive(Drop)]
pub struct MemoryShelf {
    files: BTreeMap<String, Vec<u8>>,
    plan: FaultPlan,
    alloc: Global,
}

impl Model for MemoryShelf {
    ghost use Rattle.cat_text.specs.Shelves.{Cabinet, cabinet_code, files_in};

    ghost Value = { Cabinet };

    ghost coded = { cabinet_code };

    ghost view = { λ s. record { files = files_in s.files.entries; plan = s.plan } };
}

impl MemoryShelf {
    /// A shelf without files whose calls, loads and saves in one row, fail by the plan.
    pub fn new(alloc: Global, plan: FaultPlan) -> MemoryShelf
        ensures { result ≡ record { files = empty; plan = plan } }
    {
        MemoryShelf {
            files: BTreeMap::new(alloc),
            plan,
            alloc,
        }
    }

    /// The calls so far.
    pub fn plan(&self) -> &FaultPlan
        ensures { result.now ≡ self.now.plan }
    {
        &self.plan
    }
}

impl Shelf for MemoryShelf {
    ghost files = { λ s. Some s.files };

    ghost faults = { λ s. s.plan.faults };

    ghost steady = { λ s. s.plan.failing ≡ [] };

    fn load(&mut self, name: &str) -> Result<Option<Vec<u8>>, LoadFault>
        ensures fails { (result ≡ Err OutsideFault.Failed) ↔ IsNextToFail self.old.plan }
        ensures finds { IfOk result (λ found. content found ≡ get self.old.files name.now) }
        ensures keeps { self.new.files ≡ self.old.files }

        ensures call_counted { result ≢ Err OutsideFault.Failed → self.new.plan ≡ after_call self.old.plan }
        ensures fault_counted { result ≡ Err OutsideFault.Failed → self.new.plan ≡ after_fault self.old.plan }
    {
        if self.plan.next_fails() {
            return Err(LoadFault::Failed);
        }
        let Some(bytes) = self.files.get(name) else {
            return Ok(None);
        };
        Ok(Some(Vec::from_slice(self.alloc, bytes)?))
    }

    fn save(&mut self, name: &str, bytes: &[u8]) -> Result<(), SaveFault>
        ensures fails { (result ≡ Err OutsideFault.Failed) ↔ IsNextToFail self.old.plan }
        ensures saves { OnOk result (self.new.files ≡ insert self.old.files name.now bytes.now) }
        ensures keeps { OnErr result (self.new.files ≡ self.old.files) }

        ensures call_counted { result ≢ Err OutsideFault.Failed → self.new.plan ≡ after_call self.old.plan }
        ensures fault_counted { result ≡ Err OutsideFault.Failed → self.new.plan ≡ after_fault self.old.plan }
    {
        if self.plan.next_fails() {
            return Err(SaveFault::Failed);
        }
        let name = String::from_str(self.alloc, name)?;
        let bytes = Vec::from_slice(self.alloc, bytes)?;
        match self.files.insert(name, bytes) {
            Ok(_) => Ok(()),
            Err(_) => Err(SaveFault::NoMemory),
        }
    }
}
