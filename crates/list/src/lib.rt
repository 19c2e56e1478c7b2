//! A sheet kept as a list of links in a block of records that the host hands over and gets back.
//!
//! May use the definitions of alignments and the traits of sheets. Knows nothing of other sheets, of text, or of where a block comes from.

#![tactic(auto)]

pub mod link_list;
pub mod record;
