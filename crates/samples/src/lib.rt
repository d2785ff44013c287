// The bar and the grid that boards, lists and examples start from.
#![tactic(auto)]

pub mod held;
pub mod supply;
