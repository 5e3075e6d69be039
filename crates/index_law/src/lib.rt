//! What holds of an index, over plain data: a row of words, the calls in flight, the base and the history.
//!
//! `Lawful` is the one invariant of the index, whoever keeps it: it is a conjunction of parts, each over the words and
//! parties that it names. The functions here name its laws, so that they are proved; crates above cite the lemmas.
#![tactic(auto)]

pub mod laws;
