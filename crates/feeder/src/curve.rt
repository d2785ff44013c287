// A fuse's curve: at most eight points, in order.
ghost use Rattle.std.specs.Prelude.{◌≡◌, ◌≤◌, true, [], vec_len};
ghost use Rattle.feeder.specs.Fuse.{Added, counting, in_order, last_before, may_follow, point_inside, takes};

use super::point::{CurveError, Point};
use busbar::question::Question;
use busbar::ranged::{Level, Peak};
use std::alloc::Global;

#[derive(Drop)]
pub struct Curve {
    points: Vec<Point>,
    ghost few: { vec_len points ≤ 8 },
    ghost order: { in_order points.items ≡ true },
}

impl Curve {
    // A curve without points: its fuse tells nothing.
    pub fn new(heap: Global) -> Curve
        ensures { result.points.items ≡ [] }
    {
        Curve {
            points: Vec::new(heap),
        }
    }

    // One point more at the end; on an error the curve is as it was.
    pub fn add(&mut self, point: Point) -> Result<(), CurveError>
        ensures { Added self.old.points.items point self.new.points.items result }
    {
        Question::CurvePoint.ask(self.takes(&point))?;
        self.points.push(point)?;
        Ok(())
    }

    // Whether the curve stays one with this point at its end.
    fn takes(&self, point: &Point) -> bool
        ensures { result ≡ takes self.now.points.items point.now }
    {
        let room = self.points.len() < 8;
        // `&` asks all three, so that the proof has one way: with `&&` it was tried, and did not close.
        room & point_inside(point) & self.ends_before(point)
    }

    // Whether the point may follow the last one.
    fn ends_before(&self, point: &Point) -> bool
        ensures { result ≡ last_before self.now.points.items point.now }
    {
        let Some(last) = self.points.last() else {
            return true;
        };
        may_follow(last, point)
    }

    // The first point whose level is not below the asked one.
    pub(crate) fn first_counting(&self, level: u32) -> Option<Point>
        ensures { result ≡ counting self.now.points.items level }
    {
        self.points
            .iter()
            .copied()
            .find(|point| level <= point.level)
    }
}

// Whether level, peak and heat lie in a feeder's ranges.
fn point_inside(point: &Point) -> bool
    ensures { result ≡ point_inside point.now }
{
    Level::new(point.level).is_some()
        && Peak::new(point.peak).is_some()
        && 1 <= point.heat
        && point.heat <= 200_000_000_000_000
}

// Whether the level rises, and peak and heat do not fall.
fn may_follow(last: &Point, next: &Point) -> bool
    ensures { result ≡ may_follow last.now next.now }
{
    last.level < next.level && last.peak <= next.peak && last.heat <= next.heat
}
