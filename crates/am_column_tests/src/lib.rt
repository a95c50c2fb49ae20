//! Tests of the crates that read and write columns, and of those below them. Nothing is public.
#![tactic(auto)]

#[cfg(test)]
mod colmeta;
#[cfg(test)]
mod delta;
#[cfg(test)]
mod fields;
#[cfg(test)]
mod flags;
#[cfg(test)]
mod leb;
#[cfg(test)]
mod lent;
#[cfg(test)]
mod listed;
#[cfg(test)]
mod outside;
#[cfg(test)]
mod runs;
#[cfg(test)]
mod types;
#[cfg(test)]
mod values;
