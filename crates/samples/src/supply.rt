// What most boards are fed by.
ghost use Rattle.std.specs.Prelude.{◌≡◌, IsOkAnd};

use busbar::question::Question;
use feeder::grid::Grid;
use feeder::point::Point;

// The points of a small fuse: 12,000 A up to a level of 10,000 A, and 20,000 A up to 50,000 A.
pub const TWO_POINTS: [Point; 2] = [
    Point {
        level: 10_000,
        peak: 12_000,
        heat: 400_000_000,
    },
    Point {
        level: 50_000,
        peak: 20_000,
        heat: 900_000_000,
    },
];

// A grid of κ 1.350 and m + n 1.100 over 1,000 ms.
pub fn grid() -> Result<Grid, Question>
    ensures { IsOkAnd result (λ g. (g.kappa.value ≡ 1350) × (g.heat_factor.value ≡ 1100) × (g.duration.value ≡ 1000)) }
{
    Grid::new(1_350, 1_100, 1_000)
}
