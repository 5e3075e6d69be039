//! Pins and advances of the epoch, and the release numbers that they leave, one after another and on threads.

ghost use Rattle.std.specs.Prelude.{◌≡◌, ◌+◌, ◌<◌, length};
ghost use Rattle.epochs.specs.Seats.{IsSeatOf, IsUnpinned, HasSeats, AreUnpinned};

use epochs::{Advance, EpochSeat, Epochs};
use std::sync::atomic::{AtomicU64, Ordering};
use std::test::Fail;
use std::thread::{Threads, for_each_mut, yield_now};

/// How many pins each party takes.
const PINS: u64 = 100_000;

/// How many attempts are made at most.
const TRIES: u64 = 100_000_000;

/// The last seat.
fn take_last(epochs: &Epochs, seats: &mut Vec<EpochSeat>) -> EpochSeat
    requires seats { HasSeats epochs.now (length seats.old.items) seats.old.items × AreUnpinned seats.old.items }
    requires some { 0 < length seats.old.items }
    ensures seat { IsSeatOf epochs.now result × IsUnpinned result × (result.party ≡ length seats.new.items) }
    ensures rest { HasSeats epochs.now (length seats.new.items) seats.new.items × AreUnpinned seats.new.items }
    ensures fewer { length seats.old.items ≡ length seats.new.items + 1 }
{
    let Some(seat) = seats.pop() else {
        unreachable!()
    };
    seat
}

/// What two parties come to one after another: the number of party 0's pin, the epochs to which party 1 advances before
/// and behind it, and its release number at the end. None where the pin doesn't hold it back once.
fn one_after_another(epochs: &Epochs, zero: &mut EpochSeat, one: &mut EpochSeat) -> Option<[u64; 4]>
    requires zero { IsSeatOf epochs.now zero.old × IsUnpinned zero.old }
    requires one { IsSeatOf epochs.now one.old × IsUnpinned one.old }
{
    let pin = epochs.pin_once(zero).ok()?;
    let number = pin.number();
    let first = epochs.advance_once(one).ok();
    let second = epochs.advance_once(one);
    epochs.unpin(zero, pin);
    let last = epochs.advance_once(one).ok()?;
    if !matches!(second, Err(Advance::Held { party: 0, pin: 3 })) {
        return None;
    }
    Some([number, first?, last, epochs.released(one).number])
}

#[test]
fn a_pin_holds_the_epoch_back(rt: HostRuntime) -> Result<(), Fail> {
    let (epochs, mut seats) = Epochs::new(rt.alloc(), 2)?;
    let mut one = take_last(&epochs, &mut seats);
    let mut zero = take_last(&epochs, &mut seats);
    let came = one_after_another(&epochs, &mut zero, &mut one);
    assert!(rt; came == Some([3, 4, 5, 3]));
    Ok(())
}

#[test]
fn seats_come_back(rt: HostRuntime) -> Result<(), Fail> {
    let (epochs, seats) = Epochs::new(rt.alloc(), 17)?;
    epochs.close(seats);
    Ok(())
}

/// What parties on threads have come to so far.
#[derive(Drop)]
struct Counts {
    /// How many have taken their pins, and how many pins these are.
    done: AtomicU64,
    pins: AtomicU64,
    /// How often the epoch was advanced, and the greatest release number that was read.
    advances: AtomicU64,
    freed: AtomicU64,
}

impl Counts {
    fn new() -> Counts {
        Counts {
            done: AtomicU64::new(0),
            pins: AtomicU64::new(0),
            advances: AtomicU64::new(0),
            freed: AtomicU64::new(0),
        }
    }

    /// The pins, the advances and the greatest release number.
    fn numbers(&self) -> [u64; 3] {
        [
            self.pins.load(Ordering::SeqCst),
            self.advances.load(Ordering::SeqCst),
            self.freed.load(Ordering::SeqCst),
        ]
    }
}

/// So many pins, one after another, or those before the first that isn't above each release number that was read before,
/// or is read while it is held.
fn pins(epochs: &Epochs, seat: &mut EpochSeat, counts: &Counts)
    requires { IsSeatOf epochs.now seat.old × IsUnpinned seat.old }
{
    let mut had = 0u64;
    for _ in 0..TRIES {
        if had >= PINS {
            break;
        }
        let Ok(pin) = epochs.pin_once(seat) else {
            continue;
        };
        let number = pin.number();
        if had % 64 == 0 {
            yield_now();
        }
        let below = counts.freed.load(Ordering::SeqCst) < number
            && epochs.released(seat).number < number;
        epochs.unpin(seat, pin);
        if !below {
            break;
        }
        had = had.saturating_add(1);
    }
    counts.pins.fetch_add(had, Ordering::SeqCst);
    counts.done.fetch_add(1, Ordering::SeqCst);
}

/// Advances and release numbers, one after another, until two others have taken their pins.
fn advances(epochs: &Epochs, seat: &mut EpochSeat, counts: &Counts)
    requires { IsSeatOf epochs.now seat.old × IsUnpinned seat.old }
{
    for _ in 0..TRIES {
        let last = counts.done.load(Ordering::SeqCst) == 2;
        if epochs.advance_once(seat).is_ok() {
            counts.advances.fetch_add(1, Ordering::SeqCst);
        }
        let freeing = epochs.released(seat);
        counts.freed.fetch_max(freeing.number, Ordering::SeqCst);
        if last {
            break;
        }
    }
}

/// Two parties that take pins beside others that advance the epoch, each on a thread.
fn on_threads<R: Threads + Sync>(rt: &R, epochs: &Epochs, seats: &mut [EpochSeat], counts: &Counts)
    requires { HasSeats epochs.now (length seats.old) seats.old × AreUnpinned seats.old }
{
    for_each_mut(
        rt,
        seats,
        4,
        &|party: usize, seat: &mut EpochSeat|
            requires { IsSeatOf epochs.now seat.old × IsUnpinned seat.old }
        {
            if party < 2 {
                pins(epochs, seat, counts);
            } else {
                advances(epochs, seat, counts);
            }
        },
    );
}

#[test]
fn no_pin_is_let_go_beside_advances(rt: HostRuntime) -> Result<(), Fail> {
    let (epochs, mut seats) = Epochs::new(rt.alloc(), 4)?;
    let counts = Counts::new();
    on_threads(&rt, &epochs, seats.as_mut_slice(), &counts);
    let [pins, advances, freed] = counts.numbers();
    // The epoch began at 3, and the release number is two less.
    assert!(rt; [pins, freed] == [2 * PINS, advances.saturating_add(1)]);
    Ok(())
}
