//! Tests of `mc_gather` by its public calls: the indexes of a table that is read from its file,
//! and rows through them. They stand in a crate of their own, since a crate is proved once more
//! with its tests.
#![tactic(auto)]

#[cfg(test)]
mod gather_tests;
#[cfg(test)]
mod intervals;
#[cfg(test)]
mod stored;
