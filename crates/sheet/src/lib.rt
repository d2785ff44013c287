// The board sheet: positions, slips, every call, and its stored form.
#![tactic(auto)]

pub mod asks;
pub mod calls;
pub mod counts;
pub mod load;
pub mod position;
pub mod save;
pub mod sheet;
pub mod slip;
