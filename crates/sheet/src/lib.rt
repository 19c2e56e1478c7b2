//! Sheets of word links: what every sheet answers, what an editable sheet also does, and how each refuses.
//!
//! May use the definitions of alignments. Knows nothing of any one implementation.

#![tactic(auto)]

pub mod lengths;
pub mod refusal;
pub mod sheet;
