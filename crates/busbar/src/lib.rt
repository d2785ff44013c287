// The figures of one bar: sections, records and their questions, forces, stresses, support load, heat, and the verdict.
#![tactic(auto)]

pub mod checked;
pub mod distance;
pub mod factors;
pub mod figures;
pub mod force;
pub mod question;
pub mod ranged;
pub mod record;
mod rounding;
pub mod section;
pub mod verdict;
