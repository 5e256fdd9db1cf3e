//! Tests of `mc_uca` by its public calls. They stand in a crate of their own, since a crate is
//! proved once more with its tests.
#![tactic(auto)]

#[cfg(test)]
mod order_tests;
#[cfg(test)]
mod padded_tests;
