//! Scripts: what their lines ask, round by round, and what is wrong with a text that is no script.
#![tactic(auto)]

mod ask;
mod counts;
mod cut;
mod fault;
mod fitting;
mod generator;
mod grouping;
pub mod laws;
mod line;
mod number;
mod read;
mod script;
mod usual;

pub use fault::{MOST_BYTES, ScriptFault};
pub use fitting::fits;
pub use generator::generated;
pub use line::{Line, LineFault, Reason};
pub use number::{number_up_to, read_number};
pub use read::read_script;
pub use script::{Need, Script, ScriptLine};
