//! Piles: the sheets at the bottom of a stack, and two piles of layers as a host builds them.
//!
//! May use sheets, layers, histories and stacks. Knows nothing of any one kind of sheet.

#![tactic(auto)]

pub mod bottom;
pub mod piles;
