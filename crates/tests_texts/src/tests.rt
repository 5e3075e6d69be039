//! The tests, by what they are of.

mod outside;
mod readings;
mod saving;
