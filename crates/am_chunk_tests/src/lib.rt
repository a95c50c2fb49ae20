//! The tests of the crates that read and write chunks, columns, changes and documents.
#![tactic(auto)]

#[cfg(test)]
mod change;
#[cfg(test)]
mod doc;
#[cfg(test)]
mod doccols;
#[cfg(test)]
mod frame;
#[cfg(test)]
mod generated;
#[cfg(test)]
mod opcols;
