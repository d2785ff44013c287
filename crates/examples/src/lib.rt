// Worked examples of the library: a statement about its definitions, and tests.
#![tactic(auto)]

#[cfg(test)]
mod bars;
#[cfg(test)]
mod distances;
#[cfg(test)]
mod feeders;
#[cfg(test)]
mod grounds;
#[cfg(test)]
mod outside;
#[cfg(test)]
mod questions;
#[cfg(test)]
mod sheets;
#[cfg(test)]
mod sizes;
#[cfg(test)]
mod stored_blocks;
pub mod worked;
