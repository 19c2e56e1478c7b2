//! A sheet cut out of a sheet.

ghost use Rattle.std.specs.Prelude.{◌≤◌};

/// Words that follow one another: the number of the first, and how many there are, each in 1..=512.
#[derive(Clone, Copy, Debug, PartialEq, Eq)]
pub struct Stretch {
    first: u16,
    length: u16,
    ghost first_low: { 1 ≤ first },
    ghost first_high: { first ≤ 512 },
    ghost length_low: { 1 ≤ length },
    ghost length_high: { length ≤ 512 },
}

/// A stretch of left words and a stretch of right words of the sheet below, each numbered from 1. Words that the sheet below lacks are loose.
#[derive(Drop)]
pub struct Window<S> {
    pub below: S,
    pub left: Stretch,
    pub right: Stretch,
}

mod look_ups;
mod stretches;
