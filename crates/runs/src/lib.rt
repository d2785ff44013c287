// Worked runs of calls on one board and on two: direct calls with the law, and lists as tests.
#![tactic(auto)]

#[cfg(test)]
mod bars;
#[cfg(test)]
mod boards;
pub mod direct;
#[cfg(test)]
mod grid_lists;
#[cfg(test)]
mod keeping;
#[cfg(test)]
mod lists;
#[cfg(test)]
mod makes;
#[cfg(test)]
mod noes;
#[cfg(test)]
mod pile_lists;
#[cfg(test)]
mod said;
#[cfg(test)]
mod slips;
#[cfg(test)]
mod steps;
