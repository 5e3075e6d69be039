//! Whole range scans: parts, one after another.

ghost use Rattle.std.specs.Prelude.{◌≡◌, ◌≤◌, IfOk, IfSome};
ghost use Rattle.pac_index.specs.Cuts.{HasPaid};
ghost use Rattle.pac_index.specs.Callers.{MayCall, StaysCaller, spare_of, seen_by};
ghost use Rattle.pac_index.specs.Ends.{HasOnlyRead};
ghost use Rattle.pac_index.specs.Scanned.{HasScanned, IsRead};
ghost use Rattle.pac_index.specs.CutScans.{PartEnds, PartsEnd, ScanEnds, is_cut_scan};

use crate::caller::Caller;
use crate::ended::Ended;
use crate::gate::{Gate, OpenGate, Pace};
use crate::shared::Shared;
use cat_history::{Items, Parts, ScanPart};
use cat_key::Name;
use index_core::listed_pairs;
use pm_words::NoMemory;
use std::alloc::Global;
use std::sync::Wait;

/// What a scan comes to.
#[derive(Drop)]
pub enum Scanned {
    /// All its parts.
    Done(Parts),
    /// The caller had no step left. These parts were answered before.
    Cut(Parts),
}

impl Shared {
    /// A range scan by one of the callers before the last, which is the updater's: a part from the name `from` on, and
    /// further ones, each from where the one before it ended, until `count` names are listed or the last part has no
    /// upper bound. A part locks its node only to keep the order of its names. It is tried again while it is turned
    /// back, so a scan may wait for as long as others lock a node of it or change that under it. It counts as one call,
    /// however many parts it has.
    ///
    /// It takes memory for what it lists. Where there is none, the caller is as after the parts that were answered.
    pub fn scan<R: Wait>(
        &self,
        rt: &R,
        alloc: Global,
        caller: &mut Caller,
        from: &Name,
        count: u64,
    ) -> Result<Scanned, NoMemory>
        requires may { MayCall self.now caller.old }
        ensures stays { StaysCaller self.now caller.old caller.new }
        ensures ends { ScanEnds result caller.old caller.new }
        ensures reads { HasOnlyRead (seen_by caller.old) (seen_by caller.new) }
        ensures done { IfOk result
            (λ scanned. HasScanned from.now count (seen_by caller.old) scanned (seen_by caller.new)) }
        ensures paid { HasPaid caller.old caller.new }
        ensures spare { spare_of caller.old ≤ spare_of caller.new }
    {
        self.scan_at(rt, alloc, caller, *from, count, &OpenGate)
    }

    /// A scan with the gate before its first step and between its steps, over all tries of all parts.
    pub fn scan_at<R: Wait, G: Gate>(
        &self,
        rt: &R,
        alloc: Global,
        caller: &mut Caller,
        from: Name,
        count: u64,
        gate: &G,
    ) -> Result<Scanned, NoMemory>
        requires may { MayCall self.now caller.old }
        ensures stays { StaysCaller self.now caller.old caller.new }
        ensures ends { ScanEnds result caller.old caller.new }
        ensures reads { HasOnlyRead (seen_by caller.old) (seen_by caller.new) }
        ensures done { IfOk result
            (λ scanned. HasScanned from count (seen_by caller.old) scanned (seen_by caller.new)) }
        ensures paid { HasPaid caller.old caller.new }
        ensures spare { spare_of caller.old ≤ spare_of caller.new }
    {
        let mut pace = Pace::begin(gate, caller, caller.index);
        let scanned = self.read_parts(rt, alloc, caller, from, count, &mut pace);
        if is_cut(&scanned) {
            return scanned;
        }
        caller.index = caller.index.saturating_add(1);
        scanned
    }

    /// The parts of a scan, which isn't counted as a call yet.
    fn read_parts<R: Wait, G: Gate>(
        &self,
        rt: &R,
        alloc: Global,
        caller: &mut Caller,
        from: Name,
        count: u64,
        pace: &mut Pace<'_, G>,
    ) -> Result<Scanned, NoMemory>
        requires may { MayCall self.now caller.old }
        ensures stays { StaysCaller self.now caller.old caller.new }
        ensures index { caller.new.index ≡ caller.old.index }
        ensures ends { PartsEnd result caller.old caller.new }
        ensures reads { HasOnlyRead (seen_by caller.old) (seen_by caller.new) }
        ensures parts { IfOk result
            (λ scanned. HasScanned from count (seen_by caller.old) scanned (seen_by caller.new)) }
        ensures paid { HasPaid caller.old caller.new }
        ensures spare { spare_of caller.old ≤ spare_of caller.new }
    {
        let mut parts = Vec::new(alloc);
        let mut left = count;
        let mut next = Some(from);
        while let Some(low) = next {
            let read = self.read_part(rt, alloc, caller, low, left, pace)?;
            let Some(part) = read else {
                return Ok(Scanned::Cut(Items::of(parts)));
            };
            left -= part.pairs.as_slice().len() as u64;
            let high = part.high;
            parts.push(part)?;
            next = if left > 0 { high } else { None };
        }
        Ok(Scanned::Done(Items::of(parts)))
    }

    /// The part of a scan that begins at this name, with so many names left, unless it was cut off.
    fn read_part<R: Wait, G: Gate>(
        &self,
        rt: &R,
        alloc: Global,
        caller: &mut Caller,
        low: Name,
        left: u64,
        pace: &mut Pace<'_, G>,
    ) -> Result<Option<ScanPart>, NoMemory>
        requires may { MayCall self.now caller.old }
        ensures stays { StaysCaller self.now caller.old caller.new }
        ensures index { caller.new.index ≡ caller.old.index }
        ensures ends { PartEnds result caller.old caller.new }
        ensures reads { HasOnlyRead (seen_by caller.old) (seen_by caller.new) }
        ensures part { IfOk result (λ read. IfSome read
            (IsRead low left (seen_by caller.old) (seen_by caller.new))) }
        ensures paid { HasPaid caller.old caller.new }
        ensures spare { spare_of caller.old ≤ spare_of caller.new }
    {
        // All parts of a scan are one call.
        let index = caller.index;
        let ended = self.part_at_pace(rt, caller, low, left, pace);
        caller.index = index;
        let Ended::Done(words) = ended else {
            return Ok(None);
        };
        Ok(Some(ScanPart {
            low,
            high: words.high,
            place: words.place,
            pairs: Items::of(listed_pairs(alloc, &words)?),
        }))
    }
}

/// The scan was cut off.
fn is_cut(scanned: &Result<Scanned, NoMemory>) -> bool
    ensures { result ≡ is_cut_scan scanned.now }
{
    matches!(scanned, Ok(Scanned::Cut(_)))
}
