// One call of a list, made on a sheet with the slips in hand.
ghost use Rattle.std.specs.Prelude.{◌+◌, ◌<◌, ◌≤◌};
ghost use Rattle.sheet.specs.Calls.Call.{opening as called_open, save as called_save};
ghost use Rattle.sheet.specs.Happened.{Happened, SlipBack, spent_or_no};
ghost use Rattle.history.specs.Hand.{Did, Made, hand_of, spending};
ghost use Rattle.history.specs.Room.{room_in};
ghost use Rattle.history.specs.Values.{call_of, reply_of};

use super::call::{Answer, Call};
use super::slips::find;
use busbar::record::Record;
use feeder::tells::Feeder;
use sheet::sheet::Sheet;
use sheet::slip::{Slip, Unspent};

// One call. Sheet and slips are two parameters: methods of a struct of both would have to promise to keep both `&mut`.
#[tactic(auto, using(crate::proofs::Searches::plain_calls))]
pub(crate) fn make<F: Feeder>(sheet: &mut Sheet<F>, slips: &mut Vec<Slip>, call: Call) -> Answer
    requires { 0 < room_in slips.old }
    ensures did { Did F.Feeder.meaning sheet.old (hand_of slips.old.items) (call_of call) (reply_of result) sheet.new (hand_of slips.new.items) }
    ensures room { room_in slips.old ≤ room_in slips.new + 1 }
{
    match call {
        Call::Enter { position, bar } => sheet.enter(position, bar).into(),
        Call::Strike { position } => sheet.strike(position).into(),
        Call::SetLevel { level } => sheet.set_level(level).into(),
        Call::Open { position } => open(sheet, slips, position),
        Call::Close { job, position, bar } => spend(sheet, slips, job, position, Some(bar)),
        Call::Withdraw { job, position } => spend(sheet, slips, job, position, None),
        Call::Save { buffer } => save(sheet, buffer),
        Call::Load { bytes } => sheet.load(&bytes).into(),
        Call::Position { position } => sheet.position(position).into(),
        Call::Counts => Answer::Counted(sheet.counts()),
        Call::MayRelease => Answer::Says(sheet.may_release()),
        Call::Level => Answer::Number(sheet.level()),
        Call::Job => Answer::Number(u32::from(sheet.job())),
    }
}

// The slip that is given goes to the end of those in hand.
fn open<F: Feeder>(sheet: &mut Sheet<F>, slips: &mut Vec<Slip>, position: u32) -> Answer
    requires { 0 < room_in slips.old }
    ensures did { Did F.Feeder.meaning sheet.old (hand_of slips.old.items) (called_open position) (reply_of result) sheet.new (hand_of slips.new.items) }
    ensures room { room_in slips.old ≤ room_in slips.new + 1 }
{
    match sheet.open(position) {
        Ok(slip) => {
            let job = slip.job();
            let position = slip.position();
            slips.push_reserved(slip);
            Answer::GaveSlip { job, position }
        }
        Err(question) => Answer::Refused(question),
    }
}

// A close with this record, or a withdrawal. A slip that was not spent goes back to its place.
fn spend<F: Feeder>(
    sheet: &mut Sheet<F>,
    slips: &mut Vec<Slip>,
    job: u16,
    position: u32,
    bar: Option<Record>,
) -> Answer
    ensures did { Did F.Feeder.meaning sheet.old (hand_of slips.old.items) (spending job position bar) (reply_of result) sheet.new (hand_of slips.new.items) }
    ensures room { room_in slips.old ≤ room_in slips.new }
{
    let Some(at) = find(slips, job, position) else {
        return Answer::NotInHand;
    };
    let slip = slips.remove(at);
    match spent(sheet, slip, bar) {
        Ok(()) => Answer::Done,
        Err(unspent) => {
            let Unspent { slip, question } = unspent;
            slips.insert(at, slip).unwrap();
            Answer::Refused(question)
        }
    }
}

// A record, or none, says which call it is: a closure would bring the meaning of both calls into the contract of `spend`.
fn spent<F: Feeder>(sheet: &mut Sheet<F>, slip: Slip, bar: Option<Record>) -> Result<(), Unspent>
    ensures happened { Happened F.Feeder.meaning sheet.old (spending slip.job slip.position bar) (spent_or_no result) sheet.new }
    ensures slip { SlipBack slip result }
{
    match bar {
        Some(bar) => sheet.close(slip, bar),
        None => sheet.withdraw(slip),
    }
}

// The buffer goes into the answer, with the blocks in it.
fn save<F: Feeder>(sheet: &Sheet<F>, mut buffer: Vec<u8>) -> Answer
    ensures { Made F.Feeder.meaning sheet.now (called_save buffer.items) (reply_of result) sheet.now }
{
    let blocks = sheet.save(&mut buffer);
    Answer::Saved(blocks, buffer)
}
