//! Writing text: the lines of a sheet, a fault line, and a whole sheet, into a buffer that the caller owns.
//!
//! May use the definitions of alignments, the trait of sheets, and the lines and faults of the text.
//! Knows nothing of any one implementation of a sheet, nor of how a text is read.

#![tactic(auto)]

mod line;
pub mod lines;
mod number;
#[cfg(test)]
mod tests;
mod walk;
pub mod whole;
