//! Tests of `mc_token` by its public calls, worked out by hand from the language's rules: what each
//! spelling reads as, of what kind it is, and where statements are cut. They stand in a crate of their own, since a
//! crate is proved once more with its tests.
#![tactic(auto)]

#[cfg(test)]
mod comments;
#[cfg(test)]
mod counts;
#[cfg(test)]
mod cuts;
#[cfg(test)]
mod keywords;
#[cfg(test)]
mod kinds;
#[cfg(test)]
mod marks;
#[cfg(test)]
mod refused;
#[cfg(test)]
mod row;
#[cfg(test)]
mod strings;
#[cfg(test)]
mod words;
