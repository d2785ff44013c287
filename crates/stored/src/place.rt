// The positions of a sheet.
use super::block::BLOCK;
use busbar::ranged::Ranged;

// The number of the last one, and how many there are.
pub const LAST: u32 = 32;

pub const POSITIONS: usize = LAST as usize;

// The length of the longest stored sheet: a block for the level, and one for each position.
pub const LONGEST: usize = BLOCK * (1 + POSITIONS);

// A position, by its number.
pub type Place = Ranged<1, LAST>;
