// The list that is pinned to a board, as text.
#![tactic(auto)]

pub mod line;
pub mod list;
pub mod shown;
