//! A sheet kept as bits in a block of bytes that the host hands over and gets back.
//!
//! May use the definitions of alignments and the traits of sheets. Knows nothing of other sheets, of text, or of where a block comes from.

#![tactic(auto)]

mod bits;
pub mod grid;
#[cfg(test)]
mod tests;
