//! How a shared index is made of a core.

ghost use Rattle.std.specs.Prelude.{◌≡◌, [], IfOk};
ghost use Rattle.index_core.specs.Indexes.{parties_of};
ghost use Rattle.index_core.specs.Lone.{IsQuiet};
ghost use Rattle.pac_index.specs.Kept.{first_view};
ghost use Rattle.pac_index.specs.Callers.{Opened, HasCallers, AreNew};
ghost use Rattle.epochs.specs.Seats.{HasSeats, AreNew as AreNewSeats};

use crate::caller::Caller;
use crate::rooms::Rooms;
use crate::rule::{About, Members, SplitFirst};
use crate::shared::Shared;
use atomic_table::{Seat, Table};
use epochs::{EpochSeat, Epochs};
use index_core::{Core, Parts};
use pm_words::NoMemory;
use std::alloc::Global;

impl Shared {
    /// An index whose words threads share, with its callers, from a core in which no call is in flight and nothing is
    /// written.
    pub fn new(alloc: Global, core: Core) -> Result<(Shared, Vec<Caller>), NoMemory>
        requires quiet { IsQuiet core }
        requires start { core.history ≡ [] }
        ensures opened { IfOk result (λ made. Opened core made.0 made.1.items) }
    {
        let Parts {
            memory,
            generation,
            states: _,
            base,
            history: _,
        } = core.parts();
        let layout = memory.layout();
        let about = About {
            layout,
            generation,
            base,
            opened: memory,
        };
        let (table, all) = Table::of_words(alloc, about.opened.words(), &about)?;
        let _count = table.word_count();
        let (epochs, seats) = Epochs::new(alloc, layout.callers() + 1)?;
        let shared = Shared {
            table,
            about,
            epochs,
        };
        let callers = shared.seat_callers(alloc, all, seats)?;
        Ok((shared, callers))
    }

    /// A caller for each party of the seat, which has them all.
    fn seat_callers(
        &self,
        alloc: Global,
        mut all: Seat<(), Members>,
        mut seats: Vec<EpochSeat>,
    ) -> Result<Vec<Caller>, NoMemory>
        requires table { all.table_id ≡ self.now.table.shared.table_id }
        requires all { all.me ≡ (first_view self.now.about, []) }
        requires seats { HasSeats self.now.epochs self.now.epochs.parties seats.items × AreNewSeats seats.items }
        ensures callers { IfOk result
            (λ callers. HasCallers self.now (parties_of self.now.about.layout) callers.items) }
        ensures fresh { IfOk result (λ callers. AreNew callers.items) }
    {
        let count = self.about.layout.callers() + 1;
        let mut callers = Vec::with_capacity(alloc, count as usize)?;
        for number in 0..count {
            let seat = self.table.shared.split_seat::<SplitFirst>(&mut all);
            let pins = seats.remove(0);
            let kept = Vec::new(alloc);
            let rooms = Rooms::new();
            callers.push_reserved(Caller {
                seat,
                pins,
                number,
                index: 0,
                left: None,
                cut: None,
                kept,
                rooms,
            });
        }
        Ok(callers)
    }
}
