//! The tests, by what they are of.

mod images;
mod layouts;
mod locks;
mod members;
mod names;
mod nodes;
