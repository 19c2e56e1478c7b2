//! What a sheet of word links means: its definitions, and the laws about them.
//!
//! Knows nothing of memory, of sheets as values, or of text.

#![tactic(auto)]

pub mod laws;
