//! The tests, by what they are of.

mod alone;
mod calls;
mod faults;
mod fresh;
mod gates;
mod held;
mod releases;
mod running;
