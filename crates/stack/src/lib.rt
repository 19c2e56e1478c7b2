//! Stacks: layers over sheets, to any depth, and histories of operations anywhere in them.
//!
//! May use sheets, layers and histories. Knows nothing of the sheets at the bottom.

#![tactic(auto)]

mod beside;
pub mod borrowed;
mod edits;
pub mod intersection;
pub mod laws;
pub mod mirrored;
mod over;
pub mod run;
pub mod stacked;
pub mod step;
pub mod swapped;
pub mod union;
pub mod window;
