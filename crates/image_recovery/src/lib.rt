//! The recovery of a catalogue's image, as code.
//!
//! `image_recovery_law` says which moves a recovery makes, and what they leave whenever it is broken. Here they are
//! planned on the image (`plan`), and made on the memory, an action at a time (`Making`): to the end at once
//! (`recover`), or by someone who may stop it after each action (`begin`, `Recovery`). An image that isn't sound by all
//! rules is refused.
#![tactic(auto)]

mod anchored;
pub mod laws;
mod lines;
mod making;
mod moves;
mod planning;
mod recovering;
mod stepping;
mod storing;
mod trim;

pub use making::Making;
pub use moves::Move;
pub use planning::plan;
pub use recovering::{OpenFault, refusal};
pub use stepping::{Begun, Recovery, begin, begin_sound, recover};
pub use storing::{Storing, StoringAt};
