// Runs of calls: a list of calls carried out on one sheet, or on two, with the slips in hand.
#![tactic(auto)]

pub mod boards;
pub mod both;
pub mod call;
pub mod end;
pub mod law;
mod make;
pub mod replay;
mod slips;
