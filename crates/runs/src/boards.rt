// Boards for the lists, and running two of them.
use super::said::{Said, first_other};
use super::steps::{Given, Step};
use busbar::question::Question;
use feeder::curve::Curve;
use feeder::grid::Grid;
use feeder::motors::Motors;
use feeder::point::{CurveError, Point};
use feeder::tells::Feeder;
use history::both::{Board, replay_both};
use history::call::Answer;
use samples::supply::grid;
use sheet::sheet::Sheet;
use sheet::slip::Slip;
use std::alloc::{AllocError, Global};
use std::test::Fail;

// The jobs of the two boards.
pub(crate) const FIRST: u16 = 7;

pub(crate) const SECOND: u16 = 65_535;

// One board's list.
#[derive(Clone, Copy)]
pub(crate) struct List<'a> {
    // each call with its answer
    pub(crate) steps: &'a [(Step, Said)],
    // what positions of the sheet show once every slip is withdrawn, and nothing is open
    pub(crate) end: &'a [(u32, Said)],
}

// The lists of the two boards, and what comes of them.
#[derive(Clone, Copy)]
pub(crate) struct Lists<'a> {
    pub(crate) first: List<'a>,
    pub(crate) second: List<'a>,
    // the slips that are out after both lists: job and position, in their order
    pub(crate) hand: &'a [(u16, u32)],
    // what the loads start from
    pub(crate) stored: &'a [u8],
}

impl<'a> Lists<'a> {
    // Lists of these steps, of which no end is told, and which start from nothing and leave no slip out.
    pub(crate) fn of(first: &'a [(Step, Said)], second: &'a [(Step, Said)]) -> Lists<'a> {
        Lists {
            first: List {
                steps: first,
                end: &[],
            },
            second: List {
                steps: second,
                end: &[],
            },
            hand: &[],
            stored: &[],
        }
    }
}

// Both lists on two boards under the grid, to their end.
pub(crate) fn run_under_grids(heap: Global, lists: Lists) -> Result<(), Fail> {
    let grid = grid()?;
    let _ = run(heap, grid, grid, lists)?;
    Ok(())
}

// Both lists on two boards under any feeders, to their end: all has to be as the lists say. The first board's answers.
pub(crate) fn run<F: Feeder + Drop, G: Feeder + Drop>(
    heap: Global,
    first: F,
    second: G,
    lists: Lists,
) -> Result<Vec<Answer>, Fail> {
    let first = board(heap, FIRST, first, lists.first, lists.stored)?;
    let second = board(heap, SECOND, second, lists.second, lists.stored)?;
    run_boards(heap, first, second, lists)
}

// The same on boards that have these lists.
pub(crate) fn run_boards<F: Feeder + Drop, G: Feeder + Drop>(
    heap: Global,
    first: Board<F>,
    second: Board<G>,
    lists: Lists,
) -> Result<Vec<Answer>, Fail> {
    let both = replay_both(heap, first, second).map_err(|no| no.why)?;
    let right_hand = is_hand(&both.slips, lists.hand);
    let ended = both.end();
    if !right_hand {
        return Err(Fail::new("other slips are out"));
    }
    lists.first.agree(&ended.first, &ended.first_answers)?;
    lists.second.agree(&ended.second, &ended.second_answers)?;
    Ok(ended.first_answers)
}

impl List<'_> {
    // All answers and the sheet at the end have to be as the list says.
    fn agree<F: Feeder>(&self, sheet: &Sheet<F>, answers: &[Answer]) -> Result<(), Fail> {
        let job = sheet.job();
        if let Some(place) = first_other(answers, job, self.steps) {
            return Err(Fail::new(format_args!("job {job}: another answer at {place}")));
        }
        if answers.len() != self.steps.len() {
            return Err(Fail::new(format_args!("job {job}: calls without an answer")));
        }
        if !self.shows_end(sheet) {
            return Err(Fail::new(format_args!("job {job}: another sheet at the end")));
        }
        Ok(())
    }

    // Whether nothing is open, and each position of the end shows what is expected of it.
    fn shows_end<F: Feeder>(&self, sheet: &Sheet<F>) -> bool {
        let all_shown = self.end.iter().all(|(position, said)| {
            sheet
                .position(*position)
                .is_ok_and(|state| Said::from(state) == *said)
        });
        all_shown && sheet.counts().opened == 0
    }
}

// A board of one of the two jobs.
pub(crate) fn board<F: Feeder + Drop>(
    heap: Global,
    job: u16,
    feeder: F,
    list: List,
    stored: &[u8],
) -> Result<Board<F>, AllocError> {
    let given = Given {
        heap,
        own: job,
        other: if job == FIRST { SECOND } else { FIRST },
        stored,
    };
    Ok(Board {
        job,
        feeder,
        calls: given.calls(list.steps)?,
    })
}

// Whether these are the slips, in this order.
fn is_hand(slips: &[Slip], expected: &[(u16, u32)]) -> bool {
    let in_hand = slips.iter().map(|slip| (slip.job(), slip.position()));
    in_hand.eq(expected.iter().copied())
}

// A curve of these points. The examples have the same few lines: one copy would be public, under a contract longer than they are.
pub(crate) fn curve(heap: Global, points: &[Point]) -> Result<Curve, CurveError> {
    let mut curve = Curve::new(heap);
    for point in points {
        curve.add(*point)?;
    }
    Ok(curve)
}

// Motors of 5,000 A and 100,000,000 A²·ms over a feeder.
pub(crate) fn motors<F: Feeder + Drop>(below: F) -> Result<Motors<F>, Question> {
    Motors::new(below, 5_000, 100_000_000)
}
