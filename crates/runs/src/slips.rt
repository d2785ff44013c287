// Slips of one board tried on the other, and two boards of one job.
use super::bars::Bar;
use super::boards::{FIRST, List, Lists, SECOND, board, run_boards, run_under_grids};
use super::said::Said;
use super::steps::{Step, Whose};
use feeder::grid::Grid;
use history::both::{Board, Hindrance, NotRun, replay_both};
use samples::supply::grid;
use std::alloc::Global;
use std::test::Fail;

// Three slips are given out, and stay out.
const GIVING: [(Step, Said); 11] = [
    (Step::SetLevel(16_000), Said::Done),
    (Step::Enter(1, Bar::Flat), Said::Done),
    (Step::Enter(2, Bar::Light), Said::Done),
    (Step::Enter(3, Bar::Stack), Said::Done),
    (Step::Open(2), Said::Slip(2)),
    (Step::Open(1), Said::Slip(1)),
    (Step::Open(3), Said::Slip(3)),
    (Step::Close(Whose::Own, 1, Bar::Bad(12)), Said::No(12)),
    (Step::Withdraw(Whose::Other, 1), Said::NotInHand),
    (Step::SetLevel(25_000), Said::Done),
    (Step::Counts, Said::Counted(0, 0, 3)),
];

// They are tried on the second board, whose positions of the same numbers are empty, standing and open.
const TRYING: [(Step, Said); 17] = [
    (Step::Withdraw(Whose::Other, 1), Said::No(22)),
    (Step::Enter(1, Bar::Tube), Said::Done),
    (Step::Enter(2, Bar::Tube), Said::Done),
    (Step::Enter(3, Bar::Tube), Said::Done),
    (Step::Close(Whose::Other, 1, Bar::Flat), Said::No(22)),
    (Step::Open(3), Said::Slip(3)),
    (Step::Open(1), Said::Slip(1)),
    (Step::Withdraw(Whose::Other, 1), Said::No(22)),
    (Step::Close(Whose::Other, 3, Bar::Flat), Said::No(22)),
    (Step::Close(Whose::Own, 2, Bar::Flat), Said::NotInHand),
    (Step::Withdraw(Whose::Own, 32), Said::NotInHand),
    (Step::Withdraw(Whose::Own, 1), Said::Done),
    (Step::Close(Whose::Own, 1, Bar::Flat), Said::NotInHand),
    (Step::Close(Whose::Other, 2, Bar::Bad(10)), Said::No(22)),
    (Step::Withdraw(Whose::Other, 2), Said::No(22)),
    (Step::Counts, Said::Counted(0, 2, 1)),
    (
        Step::Position(1),
        Said::Refused(706_857, 2, 11_000_000_000_000, 4_996_468_184_490),
    ),
];

// The first sheet once every slip is withdrawn: the kept records stand again.
const GAVE: [(u32, Said); 4] = [
    (1, Said::Refused(600_000, 4, 180_031, 180_000)),
    (
        2,
        Said::Refused(240_000, 2, 687_500_000_000, 576_000_000_000),
    ),
    (3, Said::Refused(1_200_000, 5, 5_859_631, 3_000_000)),
    (4, Said::Empty),
];

// The second sheet once every slip is withdrawn: the kept records stand again.
const TRIED: [(u32, Said); 4] = [
    (
        1,
        Said::Refused(706_857, 2, 11_000_000_000_000, 4_996_468_184_490),
    ),
    (
        2,
        Said::Refused(706_857, 2, 11_000_000_000_000, 4_996_468_184_490),
    ),
    (
        3,
        Said::Refused(706_857, 2, 11_000_000_000_000, 4_996_468_184_490),
    ),
    (4, Said::Empty),
];

// A refused slip goes back to its place, so those of the first board are out in the order in which they were given.
const LISTS: Lists<'static> = Lists {
    first: List {
        steps: &GIVING,
        end: &GAVE,
    },
    second: List {
        steps: &TRYING,
        end: &TRIED,
    },
    hand: &[(FIRST, 2), (FIRST, 1), (FIRST, 3), (SECOND, 3)],
    stored: &[],
};

#[test]
fn tried_on_the_other_board(rt: HostRuntime) -> Result<(), Fail> {
    run_under_grids(rt.alloc(), LISTS)
}

// Whether nothing was run because of the jobs, and both boards are there with their jobs and lists.
fn came_back(no: &NotRun<Grid, Grid>) -> bool {
    no.why == Hindrance::SameJob
        && no.first.job == FIRST
        && no.second.job == FIRST
        && no.first.calls.len() == GIVING.len()
        && no.second.calls.len() == TRYING.len()
}

fn refused(
    heap: Global,
    first: Board<Grid>,
    second: Board<Grid>,
) -> Result<NotRun<Grid, Grid>, Fail> {
    match replay_both(heap, first, second) {
        Ok(both) => {
            let _ = both.end();
            Err(Fail::new("slips of one job cannot be told apart"))
        }
        Err(no) => Ok(no),
    }
}

// Once the second board has a job of its own the lists run: they came back whole.
#[test]
fn one_job_twice(rt: HostRuntime) -> Result<(), Fail> {
    let heap = rt.alloc();
    let grid = grid()?;
    let first = board(heap, FIRST, grid, LISTS.first, LISTS.stored)?;
    let mut second = board(heap, SECOND, grid, LISTS.second, LISTS.stored)?;
    second.job = FIRST;
    let mut no = refused(heap, first, second)?;
    assert!(rt; came_back(&no));
    no.second.job = SECOND;
    let _ = run_boards(heap, no.first, no.second, LISTS)?;
    Ok(())
}
