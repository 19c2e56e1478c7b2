//! Sheets turned round: a sheet with its sides exchanged, and a sheet with its right words in the other order.
//!
//! Each owns the sheet below it, and is editable where that is. May use the definitions of alignments and the traits of sheets. Knows
//! nothing of any one sheet.

#![tactic(auto)]

pub mod mirrored;
pub mod swapped;
