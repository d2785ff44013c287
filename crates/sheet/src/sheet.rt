// The sheet of one board.
ghost use Rattle.std.specs.Prelude.{◌≡◌, length};

use super::position::State;
use busbar::ranged::Level;
pub use stored::place::POSITIONS;

#[derive(Drop)]
pub struct Sheet<F> {
    pub(crate) job: u16,
    // the prospective fault current, A
    pub(crate) level: Level,
    pub(crate) feeder: F,
    // by position, the first is position 1
    pub(crate) table: [State; POSITIONS],
    ghost full: { length table ≡ 32 },
}
