// Feeders: what a fault current brings to the board, for any pile of grid, motors and fuses.
#![tactic(auto)]

pub mod curve;
pub mod fuse;
pub mod grid;
pub mod motors;
pub mod point;
pub mod tells;
