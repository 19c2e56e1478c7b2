//! Where in a stack an operation is made.

use history::operation::Operation;

/// Which of the sheets below a layer a route goes on to.
#[derive(Clone, Copy, Debug, PartialEq, Eq)]
pub enum Turn {
    /// The first, or the only one.
    First,
    Second,
}

/// An operation, and the route from the top of a stack to the place where it is made.
#[derive(Clone, Copy)]
pub struct Step<'a> {
    pub route: &'a [Turn],
    pub operation: Operation,
}
