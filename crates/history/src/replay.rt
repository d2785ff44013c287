// A list of calls carried out on one sheet.
ghost use Rattle.std.specs.Prelude.{◌+◌, ◌≤◌, map, vec_len};
ghost use Rattle.history.specs.Hand.{Replayed, hand_of};
ghost use Rattle.history.specs.Ran.{ReplayOutcome};
ghost use Rattle.history.specs.Room.{AnswersFor, room_in};
ghost use Rattle.history.specs.Values.{call_of, reply_of};

use super::call::{Answer, Call};
use super::make::make;
use feeder::tells::Feeder;
use sheet::sheet::Sheet;
use sheet::slip::Slip;
use std::alloc::Global;

// There was not the memory for the answers or the slips. Nothing was done, and the list comes back.
#[derive(Drop)]
pub struct NoRoom {
    pub calls: Vec<Call>,
}

// Every call in its order, with the slips in hand; the answers in the same order. All the room is reserved first.
pub fn replay<F: Feeder>(
    heap: Global,
    sheet: &mut Sheet<F>,
    slips: &mut Vec<Slip>,
    calls: Vec<Call>,
) -> Result<Vec<Answer>, NoRoom>
    ensures { ReplayOutcome F.Feeder.meaning sheet.old slips.old.items calls.items result sheet.new slips.new.items }
{
    let Ok(answers) = Vec::with_capacity(heap, calls.len()) else {
        return Err(NoRoom { calls });
    };
    // last, so that on a no the slips in hand keep the room that they had
    if slips.reserve(calls.len()).is_err() {
        return Err(NoRoom { calls });
    }
    Ok(carry_out(sheet, slips, calls, answers))
}

// The calls one after the other, under room that is there already.
#[tactic(auto, using(crate::proofs::Replays::replaying))]
pub(crate) fn carry_out<F: Feeder>(
    sheet: &mut Sheet<F>,
    slips: &mut Vec<Slip>,
    calls: Vec<Call>,
    mut answers: Vec<Answer>,
) -> Vec<Answer>
    requires answers { AnswersFor calls answers }
    requires slips { vec_len calls ≤ room_in slips.old }
    ensures replayed { Replayed F.Feeder.meaning sheet.old (hand_of slips.old.items) (map call_of calls.items) (map reply_of result.items) sheet.new (hand_of slips.new.items) }
    ensures room { room_in slips.old ≤ room_in slips.new + vec_len calls }
{
    for call in calls {
        let answer = make(sheet, slips, call);
        answers.push_reserved(answer);
    }
    answers
}
