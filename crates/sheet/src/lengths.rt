//! A checked pair of lengths.

ghost use Rattle.std.specs.Prelude.{◌≤◌};

/// The lengths of a sheet, each in 1..=512.
#[derive(Clone, Copy, Debug, PartialEq, Eq)]
pub struct Lengths {
    left: u16,
    right: u16,
    ghost left_low: { 1 ≤ left },
    ghost left_high: { left ≤ 512 },
    ghost right_low: { 1 ≤ right },
    ghost right_high: { right ≤ 512 },
}

mod checks;

pub use checks::check_length;
