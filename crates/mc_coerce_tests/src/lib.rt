//! Tests of `mc_coerce` by its public calls. They stand in a crate of their own, since a crate is
//! proved once more with its tests.
#![tactic(auto)]

#[cfg(test)]
mod aggregate_tests;
#[cfg(test)]
mod list_rows;
#[cfg(test)]
mod pair_rows;
