//! Tests of the crates from the elements of a list to the view of a document, over these crates. Nothing is public.
#![tactic(auto)]

#[cfg(test)]
mod chain;
#[cfg(test)]
mod delivery;
#[cfg(test)]
mod fits;
#[cfg(test)]
mod graph;
#[cfg(test)]
mod rebuild;
#[cfg(test)]
mod replay;
#[cfg(test)]
mod rows;
#[cfg(test)]
mod sample_set;
#[cfg(test)]
mod samples;
#[cfg(test)]
mod valid_set;
#[cfg(test)]
mod view;
