// The stored form, block by block.
#![tactic(auto)]

pub mod block;
pub mod place;
pub mod read;
