//! Tests of `mc_table8` by its public calls. They stand in a crate of their own, since a crate is
//! proved once more with its tests.
#![tactic(auto)]

#[cfg(test)]
mod collation_tests;
#[cfg(test)]
mod reader_tests;
