//! Tests of the program's top call and of the index on threads below it: an outside in memory whose calls fail or move
//! few bytes, callers that a gate holds or counts, one caller alone, and pins and advances of the epoch. What words and
//! scripts come to stands in examples/cases; what callers are answered beside each other is looked at by rounds
//! (`tools/check-rounds`).
#![tactic(auto)]

#[cfg(test)]
mod tests;
