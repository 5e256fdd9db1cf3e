//! Tests of `mc_values` and `mc_print` by their public calls. They stand in a crate of their own,
//! since a crate is proved once more with its tests.
#![tactic(auto)]

#[cfg(test)]
mod print_tests;
#[cfg(test)]
mod value_tests;
