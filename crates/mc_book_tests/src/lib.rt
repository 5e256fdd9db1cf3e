//! Tests of `mc_book` by its public calls. They stand in a crate of their own, since a crate is
//! proved once more with its tests.
#![tactic(auto)]

#[cfg(test)]
mod book_tests;
#[cfg(test)]
mod collation_tests;
