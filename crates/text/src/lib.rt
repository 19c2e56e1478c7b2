//! The text of a sheet: its lines, what each of them holds, and what can be at fault in them.
//!
//! Has the definitions that both the loader and the writers keep to. Knows nothing of either.

#![tactic(auto)]

pub mod fault;
pub mod line;
