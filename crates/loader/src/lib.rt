//! Reads the text of a sheet: the lengths in its first line, then its links onto any editable sheet.
//!
//! May use what a sheet is and what its text holds. Knows no one sheet, and nothing of writing.

#![tactic(auto)]

pub mod load;
mod record;
mod split;
