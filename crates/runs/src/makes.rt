// Two boards under feeders of different make that tell the same: the same answers to the same list, and a harder bar no softer.
use super::bars::Bar;
use super::boards::{FIRST, Lists, SECOND, curve, motors, run};
use super::said::Said;
use super::steps::{Step, Whose};
use feeder::fuse::Fuse;
use feeder::point::Point;
use samples::supply::grid;
use std::alloc::Global;
use std::test::Fail;

// A curve that cuts nothing at any level: a fuse with it tells what the feeder below tells.
const IDLE: [Point; 1] = [Point {
    level: 100_000,
    peak: 300_000,
    heat: 200_000_000_000_000,
}];

// A curve that cuts nothing up to 50,000 A, where the grid with the motors tells 100,460 A and 2,750,100,000,000 A²·ms.
// Above that level a fuse with it tells nothing.
const IDLE_BELOW: [Point; 1] = [Point {
    level: 50_000,
    peak: 100_460,
    heat: 2_750_100_000_000,
}];

// The slips that both lists below leave out.
const LEFT_OPEN: [(u16, u32); 2] = [(FIRST, 3), (SECOND, 3)];

// What is answered under the grid.
const UNDER_GRID: [(Step, Said); 30] = [
    (Step::SetLevel(16_000), Said::Done),
    (Step::Enter(1, Bar::Flat), Said::Done),
    (Step::Enter(2, Bar::Light), Said::Done),
    (Step::Enter(3, Bar::Stack), Said::Done),
    (Step::Enter(4, Bar::Tube), Said::Done),
    (Step::Position(1), Said::Accepted(600_000)),
    (
        Step::Position(2),
        Said::Refused(240_000, 4, 307_269, 180_000),
    ),
    (Step::Position(3), Said::Accepted(1_200_000)),
    (Step::Position(4), Said::Accepted(706_857)),
    (Step::Counts, Said::Counted(3, 1, 0)),
    (Step::MayRelease, Said::Not),
    (Step::Open(2), Said::Slip(2)),
    (Step::SetLevel(25_000), Said::Done),
    (
        Step::Position(1),
        Said::Refused(600_000, 4, 180_031, 180_000),
    ),
    (Step::Position(2), Said::Open(240_000)),
    (
        Step::Position(3),
        Said::Refused(1_200_000, 5, 5_859_631, 3_000_000),
    ),
    (
        Step::Position(4),
        Said::Refused(706_857, 5, 5_859_631, 3_000_000),
    ),
    (Step::Close(Whose::Own, 2, Bar::Bad(14)), Said::No(14)),
    (Step::Close(Whose::Own, 2, Bar::Long), Said::Done),
    (
        Step::Position(2),
        Said::Refused(600_000, 4, 259_245, 180_000),
    ),
    (Step::SetLevel(50_000), Said::Done),
    (
        Step::Position(1),
        Said::Refused(600_000, 4, 720_123, 180_000),
    ),
    (
        Step::Position(3),
        Said::Refused(1_200_000, 3, 209_390, 120_000),
    ),
    (Step::Counts, Said::Counted(0, 4, 0)),
    (Step::SetLevel(100), Said::Done),
    (Step::Counts, Said::Counted(4, 0, 0)),
    (Step::MayRelease, Said::Yes),
    (Step::Open(3), Said::Slip(3)),
    (Step::SetLevel(14_000), Said::Done),
    (Step::Position(1), Said::Accepted(600_000)),
];

// What is answered to the same calls under the grid with the motors.
const UNDER_MOTORS: [(Step, Said); 30] = [
    (Step::SetLevel(16_000), Said::Done),
    (Step::Enter(1, Bar::Flat), Said::Done),
    (Step::Enter(2, Bar::Light), Said::Done),
    (Step::Enter(3, Bar::Stack), Said::Done),
    (Step::Enter(4, Bar::Tube), Said::Done),
    (
        Step::Position(1),
        Said::Refused(600_000, 5, 3_250_258, 3_000_000),
    ),
    (
        Step::Position(2),
        Said::Refused(240_000, 4, 416_086, 180_000),
    ),
    (
        Step::Position(3),
        Said::Refused(1_200_000, 5, 3_250_258, 3_000_000),
    ),
    (
        Step::Position(4),
        Said::Refused(706_857, 5, 3_250_258, 3_000_000),
    ),
    (Step::Counts, Said::Counted(0, 4, 0)),
    (Step::MayRelease, Said::Not),
    (Step::Open(2), Said::Slip(2)),
    (Step::SetLevel(25_000), Said::Done),
    (
        Step::Position(1),
        Said::Refused(600_000, 4, 219_725, 180_000),
    ),
    (Step::Position(2), Said::Open(240_000)),
    (
        Step::Position(3),
        Said::Refused(1_200_000, 5, 7_151_596, 3_000_000),
    ),
    (
        Step::Position(4),
        Said::Refused(706_857, 5, 7_151_596, 3_000_000),
    ),
    (Step::Close(Whose::Own, 2, Bar::Bad(14)), Said::No(14)),
    (Step::Close(Whose::Own, 2, Bar::Long), Said::Done),
    (
        Step::Position(2),
        Said::Refused(600_000, 4, 316_404, 180_000),
    ),
    (Step::SetLevel(50_000), Said::Done),
    (
        Step::Position(1),
        Said::Refused(600_000, 4, 797_536, 180_000),
    ),
    (
        Step::Position(3),
        Said::Refused(1_200_000, 3, 231_899, 120_000),
    ),
    (Step::Counts, Said::Counted(0, 4, 0)),
    (Step::SetLevel(100), Said::Done),
    (Step::Counts, Said::Counted(4, 0, 0)),
    (Step::MayRelease, Said::Yes),
    (Step::Open(3), Said::Slip(3)),
    (Step::SetLevel(14_000), Said::Done),
    (Step::Position(1), Said::Accepted(600_000)),
];

// Both lists, the first under the grid, and the second under an idle fuse over it.
fn run_with_idle_fuse(heap: Global, lists: Lists) -> Result<(), Fail> {
    let grid = grid()?;
    let fuse = Fuse::new(grid, curve(heap, &IDLE)?);
    let _ = run(heap, grid, fuse, lists)?;
    Ok(())
}

#[test]
fn a_grid_and_an_idle_fuse(rt: HostRuntime) -> Result<(), Fail> {
    let lists = Lists {
        hand: &LEFT_OPEN,
        ..Lists::of(&UNDER_GRID, &UNDER_GRID)
    };
    run_with_idle_fuse(rt.alloc(), lists)
}

// A fuse over motors, and motors over a fuse: they tell the same at the levels of the list.
#[test]
fn two_piles(rt: HostRuntime) -> Result<(), Fail> {
    let heap = rt.alloc();
    let grid = grid()?;
    let above = Fuse::new(motors(grid)?, curve(heap, &IDLE_BELOW)?);
    let below = motors(Fuse::new(grid, curve(heap, &IDLE_BELOW)?))?;
    let lists = Lists {
        hand: &LEFT_OPEN,
        ..Lists::of(&UNDER_MOTORS, &UNDER_MOTORS)
    };
    let _ = run(heap, above, below, lists)?;
    Ok(())
}

// The flat bar at rising levels.
const EASIER: [(Step, Said); 15] = [
    (Step::Enter(1, Bar::Flat), Said::Done),
    (Step::SetLevel(5_000), Said::Done),
    (Step::Position(1), Said::Accepted(600_000)),
    (Step::SetLevel(16_000), Said::Done),
    (Step::Position(1), Said::Accepted(600_000)),
    (Step::SetLevel(17_000), Said::Done),
    (Step::Position(1), Said::Accepted(600_000)),
    (Step::SetLevel(18_000), Said::Done),
    (
        Step::Position(1),
        Said::Refused(600_000, 5, 3_037_704, 3_000_000),
    ),
    (Step::SetLevel(25_000), Said::Done),
    (
        Step::Position(1),
        Said::Refused(600_000, 4, 180_031, 180_000),
    ),
    (Step::SetLevel(30_000), Said::Done),
    (
        Step::Position(1),
        Said::Refused(600_000, 4, 259_245, 180_000),
    ),
    (Step::SetLevel(100_000), Said::Done),
    (
        Step::Position(1),
        Said::Refused(600_000, 2, 11_000_000_000_000, 3_600_000_000_000),
    ),
];

// The same bar with longer spans, at the same levels.
const HARDER: [(Step, Said); 15] = [
    (Step::Enter(1, Bar::Long), Said::Done),
    (Step::SetLevel(5_000), Said::Done),
    (Step::Position(1), Said::Accepted(600_000)),
    (Step::SetLevel(16_000), Said::Done),
    (Step::Position(1), Said::Accepted(600_000)),
    (Step::SetLevel(17_000), Said::Done),
    (
        Step::Position(1),
        Said::Refused(600_000, 5, 3_251_513, 3_000_000),
    ),
    (Step::SetLevel(18_000), Said::Done),
    (
        Step::Position(1),
        Said::Refused(600_000, 5, 3_645_244, 3_000_000),
    ),
    (Step::SetLevel(25_000), Said::Done),
    (
        Step::Position(1),
        Said::Refused(600_000, 4, 259_245, 180_000),
    ),
    (Step::SetLevel(30_000), Said::Done),
    (
        Step::Position(1),
        Said::Refused(600_000, 4, 373_312, 180_000),
    ),
    (Step::SetLevel(100_000), Said::Done),
    (
        Step::Position(1),
        Said::Refused(600_000, 2, 11_000_000_000_000, 3_600_000_000_000),
    ),
];

// The ground of a refusal.
fn ground(said: Said) -> Option<u32> {
    match said {
        Said::Refused(_, ground, _, _) => Some(ground),
        _ => None,
    }
}

// Whether an answer is a refusal wherever the easier one is, on no later ground.
fn no_softer(harder: Said, easier: Said) -> bool {
    ground(easier).is_none_or(|later| ground(harder).is_some_and(|ground| ground <= later))
}

// Where the easier bar is refused the harder one is, on the same ground or an earlier one, on whichever board it stands.
#[test]
fn a_harder_bar(rt: HostRuntime) -> Result<(), Fail> {
    run_with_idle_fuse(rt.alloc(), Lists::of(&EASIER, &HARDER))?;
    run_with_idle_fuse(rt.alloc(), Lists::of(&HARDER, &EASIER))?;
    for ((_, harder), (_, easier)) in HARDER.iter().zip(&EASIER) {
        assert!(rt; no_softer(*harder, *easier));
    }
    Ok(())
}
