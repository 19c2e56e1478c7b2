//! The engine's calls that bring sheets and texts together.
//!
//! May use everything below. The programs call this crate and hold nothing that has to be proved.

#![tactic(auto)]

pub mod copying;
pub mod listing;
