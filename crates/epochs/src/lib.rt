//! Pins and release numbers: when things that were put out of reach may be freed, while others may still read them.
//!
//! Who puts a thing out of reach stamps it with the epoch, a number that only rises. Who reads takes a pin first, which
//! has the number of the epoch. A release number is two less than the epoch, and what is stamped with it or with less
//! may be freed: each pin that is held then, or is taken later, has a greater number. So while a pin is held, nothing
//! that is stamped with its number or a greater one is freed.
//!
//! Word 0 of the table is the epoch, word `1 + p` the pin of party `p`, which is 0 where it has none. The epoch rises
//! by one where each pin is found 0 or the epoch itself, so a pin that is held lets it rise once and no further.
//!
//! To pin, a party loads the epoch, stores what it found as its pin, and loads the epoch again. Without the second load
//! this could happen, from top to bottom:
//!
//! ```text
//! epoch   party 0, which pins              party 1, which frees
//!   3     loads the epoch: 3
//!   3                                      finds no pin, raises the epoch to 4
//!   4                                      finds no pin, raises it to 5
//!   5     stores 3, which is its pin now
//!   5                                      reads the release number 3
//!   5     reads a thing stamped with 3
//!   5                                      frees what is stamped with 3, that thing too
//! ```
//!
//! With it party 0 finds 5 in place of 3, stores 0 again, and is told that the epoch has moved. Where it finds 3 again,
//! its pin stood there before any party could have loaded the epoch as 4, so whoever does finds the pin.
#![tactic(auto)]

mod answers;
mod calls;
mod closing;
mod laws;
mod making;
mod rule;
mod seat;
mod shared;
mod steps;

pub use answers::{Advance, EpochMoved, Freeing, Pin};
pub use laws::{causes_law, moment_law, schedule_law};
pub use rule::{
    EpochExchanges, EpochLoads, Made, PinClears, PinLoads, PinMember, PinMembers, PinRule,
    PinState, PinStores,
};
pub use seat::EpochSeat;
pub use shared::Epochs;
pub use std::alloc::AllocError as NoMemory;
