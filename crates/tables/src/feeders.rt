// A row of feeders: a grid, motors over it, a fuse over those, a level, and the peak and heat told.
use super::row::Row;
use feeder::curve::Curve;
use feeder::fuse::Fuse;
use feeder::grid::Grid;
use feeder::motors::Motors;
use feeder::point::Point;
use feeder::tells::Feeder;
use std::alloc::Global;

pub(crate) fn agrees(heap: Global, line: &str) -> Option<bool> {
    let mut row = Row::new(line, '\t');
    let grid = Grid::new(row.number()?, row.number()?, row.number()?).ok()?;
    let motors = Motors::new(grid, row.number()?, row.number()?).ok()?;
    let points = row.word()?;
    let level = row.number()?;
    let told = match points {
        "-" => motors.tell(level),
        _ => Fuse::new(motors, curve(heap, points)?).tell(level),
    };
    Some(told == expected(&mut row)?)
}

// Zeros stand for nothing told.
fn expected(row: &mut Row) -> Option<Option<(u32, u64)>> {
    let told = (row.number()?, row.number()?);
    Some((told != (0, 0)).then_some(told))
}

// The points of a curve, parted by `;`, each with its level, peak and heat parted by `,`.
fn curve(heap: Global, text: &str) -> Option<Curve> {
    let mut curve = Curve::new(heap);
    if text == "empty" {
        return Some(curve);
    }
    for point in text.split(';') {
        let mut row = Row::new(point, ',');
        let point = Point {
            level: row.number()?,
            peak: row.number()?,
            heat: row.number()?,
        };
        curve.add(point).ok()?;
    }
    Some(curve)
}
