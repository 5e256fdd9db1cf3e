//! Tests of `mc_key` by its public calls. They stand in a crate of their own, since a crate is
//! proved once more with its tests.
#![tactic(auto)]

#[cfg(test)]
mod key_tests;
#[cfg(test)]
mod weight_string_tests;
