//! Tests that need code: very long and deep globs, rules in files that fail, large files, and the
//! queries of matches.
#![tactic(auto)]

#[cfg(test)]
mod brackets;
#[cfg(test)]
mod deep;
#[cfg(test)]
mod faults;
#[cfg(test)]
mod large;
#[cfg(test)]
mod long_globs;
#[cfg(test)]
mod queries;
