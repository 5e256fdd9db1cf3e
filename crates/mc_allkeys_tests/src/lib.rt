//! Tests of `mc_allkeys` by its public calls. They stand in a crate of their own, since a crate is
//! proved once more with its tests.
#![tactic(auto)]

#[cfg(test)]
mod look_up_tests;
#[cfg(test)]
mod put_tests;
#[cfg(test)]
mod reader_tests;
