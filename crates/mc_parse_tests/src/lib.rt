//! Tests of `mc_parse` by its public calls, worked out by hand from the grammar: the token that a
//! statement cannot go on with, in `unfinished` to `calls`; what is read, how many tokens and how
//! many levels there may be, in `read` and `depths`. They stand in a crate of their own, since a
//! crate is proved once more with its tests.
#![tactic(auto)]

#[cfg(test)]
mod calls;
#[cfg(test)]
mod clauses;
#[cfg(test)]
mod depths;
#[cfg(test)]
mod names;
#[cfg(test)]
mod operators;
#[cfg(test)]
mod read;
#[cfg(test)]
mod row;
#[cfg(test)]
mod unfinished;
