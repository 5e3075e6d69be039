//! Where bytes come from and where they go, as traits, so that a contract can name the bytes and a
//! test can let any call fail.

pub mod counted;
pub mod fault;
pub mod fault_count;
pub mod files;
pub mod memory;
pub mod memory_shelf;
pub mod plan;
pub mod shelf;
pub mod sink;
pub mod source;
