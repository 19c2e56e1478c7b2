//! Whole texts and what comes of them: a table of listings, and each refusal that no listing meets. Sheets under layers, and histories.

#![tactic(auto)]

#[cfg(test)]
mod piles;
#[cfg(test)]
mod tests;
