//! The tests of the crates that read lines and words, and that make and keep texts.
#![tactic(auto)]

#[cfg(test)]
mod cache;
#[cfg(test)]
mod json;
#[cfg(test)]
mod listed;
#[cfg(test)]
mod script;
