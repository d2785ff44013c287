// Two lists of calls on the new sheets of two boards.
ghost use Rattle.std.specs.Prelude.{◌≡◌, MatchResult, Some};
ghost use Rattle.history.specs.Both.{BothOutcome, BothRan, Hindered};
ghost use Rattle.history.specs.Hindrances.{hindrance_text};
ghost use Rattle.history.specs.Room.{CanRun};
ghost use Rattle.history.specs.declared.both.Hindrance.TheVariants.{Memory};

use super::boards::Both;
use super::call::{Answer, Call};
use super::replay::carry_out;
use feeder::tells::Feeder;
use sheet::sheet::Sheet;
use sheet::slip::Slip;
use std::alloc::{AllocError, Global};
use std::error::Error;
use std::fmt;

// A board: the number of its job, its feeder, and the list of calls for its new sheet.
#[derive(Drop)]
pub struct Board<F> {
    pub job: u16,
    pub feeder: F,
    pub calls: Vec<Call>,
}

// Why two boards were not run.
#[derive(Clone, Copy, Debug, PartialEq, Eq)]
pub enum Hindrance {
    // the slips of one job cannot be told apart
    SameJob,
    Memory,
}

impl fmt::Display for Hindrance {
    ghost output = { λ why. Some (hindrance_text why) };

    fn fmt<W: fmt::Write>(&self, f: &mut fmt::Formatter<W>) -> fmt::Result {
        f.write_str(match self {
            Hindrance::SameJob => "two boards of one job",
            Hindrance::Memory => "not enough memory",
        })
    }
}

impl Error for Hindrance {}

impl From<AllocError> for Hindrance {
    ghost from_gives = { λ _ why. why ≡ Memory };

    fn from(_no_memory: AllocError) -> Self {
        Self::Memory
    }
}

// Nothing was run, and both boards come back.
#[derive(Drop)]
pub struct NotRun<F, G> {
    pub why: Hindrance,
    pub first: Board<F>,
    pub second: Board<G>,
}

// The first list on the first board's new sheet, then the second list on the second's, with the slips of both in hand.
pub fn replay_both<F: Feeder, G: Feeder>(
    heap: Global,
    first: Board<F>,
    second: Board<G>,
) -> Result<Both<F, G>, NotRun<F, G>>
    ensures { BothOutcome F.Feeder.meaning G.Feeder.meaning first second result }
{
    // no `?`: on a no the boards go back, and `map_err` could not take them while a yes needs them
    match room_for(heap, &first, &second) {
        Ok(room) => Ok(run_both(first, second, room)),
        Err(why) => Err(NotRun { why, first, second }),
    }
}

// Room for all answers and all slips, before the first call is made.
struct Room {
    first_answers: Vec<Answer>,
    second_answers: Vec<Answer>,
    slips: Vec<Slip>,
}

fn room_for<F: Feeder, G: Feeder>(
    heap: Global,
    first: &Board<F>,
    second: &Board<G>,
) -> Result<Room, Hindrance>
    ensures { MatchResult result (λ room. CanRun first.now second.now room) (λ why. Hindered first.now.job second.now.job why) }
{
    if first.job == second.job {
        return Err(Hindrance::SameJob);
    }
    let first_answers = Vec::with_capacity(heap, first.calls.len())?;
    let second_answers = Vec::with_capacity(heap, second.calls.len())?;
    let slips = Vec::with_capacity(heap, first.calls.len() + second.calls.len())?;
    Ok(Room {
        first_answers,
        second_answers,
        slips,
    })
}

fn run_both<F: Feeder, G: Feeder>(first: Board<F>, second: Board<G>, room: Room) -> Both<F, G>
    requires { CanRun first second room }
    ensures { BothRan F.Feeder.meaning G.Feeder.meaning first second result }
{
    let Room {
        first_answers,
        second_answers,
        mut slips,
    } = room;
    let mut first_sheet = Sheet::new(first.job, first.feeder);
    let mut second_sheet = Sheet::new(second.job, second.feeder);
    let first_answers = carry_out(&mut first_sheet, &mut slips, first.calls, first_answers);
    let second_answers = carry_out(&mut second_sheet, &mut slips, second.calls, second_answers);
    Both {
        first: first_sheet,
        second: second_sheet,
        first_answers,
        second_answers,
        slips,
    }
}
