//! The tests of am_store: files, deliveries and documents, by its public calls alone.
#![tactic(auto)]

#[cfg(test)]
mod adopting;
#[cfg(test)]
mod alike;
#[cfg(test)]
mod calls;
#[cfg(test)]
mod copies;
#[cfg(test)]
mod damage;
#[cfg(test)]
mod deliveries;
#[cfg(test)]
mod document;
#[cfg(test)]
mod history;
#[cfg(test)]
mod loading;
#[cfg(test)]
mod saving;
#[cfg(test)]
mod staging;
#[cfg(test)]
mod turning;
