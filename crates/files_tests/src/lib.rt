//! Tests of the machine's files beside a tree in memory, and of the environment of a process.
#![tactic(auto)]

#[cfg(test)]
mod changed;
#[cfg(test)]
mod counted;
#[cfg(test)]
mod disk;
#[cfg(test)]
mod environment;
#[cfg(test)]
mod kinds;
#[cfg(test)]
mod machines;
