//! Sheets made of the sheets below them: cut out of one, and put together of two.
//!
//! May use the definitions of alignments and the traits of sheets. Each layer owns the sheets below it, takes any kind of sheet, and knows nothing of any one.
//! Union and intersection are no two instances of one type: they differ in what each look-up computes.

#![tactic(auto)]

pub mod intersection;
pub mod union;
pub mod window;
