// Grid, motors and fuse, by themselves and piled up.
use super::bars::numbered;
use busbar::question::Question;
use feeder::curve::Curve;
use feeder::fuse::Fuse;
use feeder::grid::Grid;
use feeder::motors::Motors;
use feeder::point::{CurveError, Point};
use feeder::tells::Feeder;
use samples::supply::{TWO_POINTS, grid};
use std::alloc::Global;
use std::test::Fail;

// The number of the question that kept a point off a curve.
fn refused(answer: Result<(), CurveError>) -> Option<u32> {
    match answer {
        Err(CurveError::Refused(question)) => Some(question.number()),
        Ok(()) | Err(CurveError::Memory) => None,
    }
}

// The curve of the worked pile.
fn two_points(heap: Global) -> Result<Curve, CurveError> {
    let mut curve = Curve::new(heap);
    for point in TWO_POINTS {
        curve.add(point)?;
    }
    Ok(curve)
}

#[test]
fn a_grid(rt: HostRuntime) -> Result<(), Fail> {
    let grid = grid()?;
    assert_eq!(rt; grid.tell(16_000), Some((30_548, 281_600_000_000)));
    for level in [0, 99, 100_001, u32::MAX] {
        assert_eq!(rt; grid.tell(level), None);
    }
    assert_eq!(rt; grid.tell(100), Some((191, 11_000_000)));
    assert_eq!(rt; grid.tell(100_000), Some((190_919, 11_000_000_000_000)));
    Ok(())
}

#[test]
fn sizes_of_a_grid(rt: HostRuntime) {
    assert_eq!(rt; numbered(Grid::new(1_000, 1, 20)), Ok(()));
    assert_eq!(rt; numbered(Grid::new(2_000, 3_000, 5_000)), Ok(()));
    for (kappa, factor, duration) in [
        (999, 1, 20),
        (2_001, 1, 20),
        (1_000, 0, 20),
        (1_000, 3_001, 20),
        (1_000, 1, 19),
        (1_000, 1, 5_001),
    ] {
        assert_eq!(rt; numbered(Grid::new(kappa, factor, duration)), Err(40));
    }
}

// What motors of the given peak and heat over the grid tell at a level.
fn over_motors(peak: u32, heat: u64, level: u32) -> Result<Option<(u32, u64)>, Question> {
    Ok(Motors::new(grid()?, peak, heat)?.tell(level))
}

#[test]
fn motors_over_a_grid(rt: HostRuntime) -> Result<(), Fail> {
    assert_eq!(rt;
        over_motors(452, 400_000_000, 16_000)?,
        Some((31_000, 282_000_000_000))
    );
    assert_eq!(rt; over_motors(0, 0, 16_000)?, Some((30_548, 281_600_000_000)));
    assert_eq!(rt;
        over_motors(50_000, 50_000_000_000_000, 16_000)?,
        Some((80_548, 50_281_600_000_000))
    );
    assert_eq!(rt; numbered(over_motors(50_001, 0, 16_000)), Err(41));
    assert_eq!(rt;
        numbered(over_motors(0, 50_000_000_000_001, 16_000)),
        Err(41)
    );
    assert_eq!(rt; over_motors(0, 0, 99)?, None);
    Ok(())
}

// Three motors bring the peak to 300,000 and one more past it; four bring the heat to its maximum and one more past it.
#[test]
fn sums_at_their_maxima(rt: HostRuntime) -> Result<(), Fail> {
    for (peak, told) in [(9_081, Some(300_000)), (9_082, None)] {
        let one = Motors::new(grid()?, 50_000, 0)?;
        let two = Motors::new(one, 50_000, 0)?;
        let three = Motors::new(two, peak, 0)?;
        assert_eq!(rt; three.tell(100_000).map(|(peak, _)| peak), told);
    }
    let most = 50_000_000_000_000;
    for (heat, told) in [
        (39_000_000_000_000, Some(200_000_000_000_000)),
        (39_000_000_000_001, None),
    ] {
        let one = Motors::new(grid()?, 0, most)?;
        let two = Motors::new(one, 0, most)?;
        let three = Motors::new(two, 0, most)?;
        let four = Motors::new(three, 0, heat)?;
        assert_eq!(rt; four.tell(100_000).map(|(_, heat)| heat), told);
    }
    Ok(())
}

#[test]
fn a_fuse_over_a_grid(rt: HostRuntime) -> Result<(), Fail> {
    let fuse = Fuse::new(grid()?, two_points(rt.alloc())?);
    assert_eq!(rt; fuse.tell(16_000), Some((20_000, 900_000_000)));
    assert_eq!(rt; fuse.tell(10_000), Some((12_000, 400_000_000)));
    assert_eq!(rt; fuse.tell(10_001), Some((19_094, 900_000_000)));
    assert_eq!(rt; fuse.tell(50_000), Some((20_000, 900_000_000)));
    assert_eq!(rt; fuse.tell(50_001), None);
    assert_eq!(rt; fuse.tell(99), None);
    assert_eq!(rt;
        Fuse::new(grid()?, Curve::new(rt.alloc())).tell(16_000),
        None
    );
    Ok(())
}

// A refused point leaves the curve as it was: the fuse over it tells what the one before tells.
#[test]
fn points_that_do_not_fit(rt: HostRuntime) -> Result<(), Fail> {
    let mut curve = two_points(rt.alloc())?;
    for (level, peak, heat) in [
        (50_000, 20_000, 900_000_000),
        (49_999, 20_000, 900_000_000),
        (50_001, 19_999, 900_000_000),
        (50_001, 20_000, 899_999_999),
        (100_001, 20_000, 900_000_000),
        (60_000, 300_001, 900_000_000),
        (60_000, 20_000, 200_000_000_000_001),
    ] {
        assert_eq!(rt; refused(curve.add(Point { level, peak, heat })), Some(42));
    }
    let fuse = Fuse::new(grid()?, curve);
    assert_eq!(rt; fuse.tell(50_000), Some((20_000, 900_000_000)));
    assert_eq!(rt; fuse.tell(50_001), None);
    let mut first = Curve::new(rt.alloc());
    for (level, peak, heat) in [(99, 1, 1), (100, 0, 1), (100, 1, 0)] {
        assert_eq!(rt; refused(first.add(Point { level, peak, heat })), Some(42));
    }
    first.add(Point {
        level: 100,
        peak: 1,
        heat: 1,
    })?;
    Ok(())
}

#[test]
fn a_ninth_point(rt: HostRuntime) -> Result<(), Fail> {
    let mut curve = Curve::new(rt.alloc());
    for level in 1_000..1_008u32 {
        curve.add(Point {
            level,
            peak: 500,
            heat: 1_000,
        })?;
    }
    let ninth = Point {
        level: 2_000,
        peak: 500,
        heat: 1_000,
    };
    assert_eq!(rt; refused(curve.add(ninth)), Some(42));
    let fuse = Fuse::new(grid()?, curve);
    assert_eq!(rt; fuse.tell(1_007), Some((500, 1_000)));
    assert_eq!(rt; fuse.tell(1_008), None);
    Ok(())
}

// A pile of four: a fuse over motors over a fuse over a grid.
#[test]
fn a_pile_of_four(rt: HostRuntime) -> Result<(), Fail> {
    let lower: Fuse<Grid> = Fuse::new(grid()?, two_points(rt.alloc())?);
    let motors: Motors<Fuse<Grid>> = Motors::new(lower, 5_000, 100_000_000)?;
    let mut curve = Curve::new(rt.alloc());
    curve.add(Point {
        level: 40_000,
        peak: 24_000,
        heat: 2_000_000_000,
    })?;
    let pile: Fuse<Motors<Fuse<Grid>>> = Fuse::new(motors, curve);
    assert_eq!(rt; pile.tell(10_000), Some((17_000, 500_000_000)));
    assert_eq!(rt; pile.tell(16_000), Some((24_000, 1_000_000_000)));
    assert_eq!(rt; pile.tell(40_001), None);
    Ok(())
}
