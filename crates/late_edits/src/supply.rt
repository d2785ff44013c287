// The supply of the rink's compressor board: a fuse over the motors over the grid.
use super::trouble::Trouble;
use feeder::curve::Curve;
use feeder::fuse::Fuse;
use feeder::grid::Grid;
use feeder::motors::Motors;
use feeder::point::Point;
use samples::supply::grid;
use std::alloc::Global;

// Up to 20,000 A the fuse lets through a peak of 30,000 A at most, and above nothing is known of it.
pub(crate) fn supply(heap: Global) -> Result<Fuse<Motors<Grid>>, Trouble> {
    let motors = Motors::new(grid()?, 452, 400_000_000)?;
    let mut curve = Curve::new(heap);
    curve.add(Point {
        level: 10_000,
        peak: 20_000,
        heat: 150_000_000_000,
    })?;
    curve.add(Point {
        level: 20_000,
        peak: 30_000,
        heat: 280_000_000_000,
    })?;
    Ok(Fuse::new(motors, curve))
}
