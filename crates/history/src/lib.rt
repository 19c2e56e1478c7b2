//! Histories: lists of operations on a sheet, what each answers, and what the sheet comes to.
//!
//! May use the definitions of alignments and sheets. Knows nothing of any one implementation.

#![tactic(auto)]

pub mod operate;
pub mod operation;
pub mod run;
