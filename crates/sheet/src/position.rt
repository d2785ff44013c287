// One position of the sheet, and what a call may do to it.
ghost use Rattle.std.specs.Prelude.{◌≡◌};
ghost use Rattle.sheet.specs.Position.{Changed, Stands, again, judged};

use busbar::checked::CheckedRecord;
use busbar::question::Question;
use busbar::record::Record;
use busbar::verdict::{Verdict, judge};

// Empty, standing with its verdict, or open: a slip is out for it, and its record is kept.
#[derive(Clone, Copy, Debug, PartialEq, Eq)]
pub enum State {
    Empty,
    Standing(CheckedRecord, Verdict),
    Open(CheckedRecord),
}

// What a call asks of one position.
#[derive(Clone, Copy, Debug, PartialEq, Eq)]
pub enum Change {
    Enter(Record),
    Strike,
    Open,
    Close(Record),
    Withdraw,
}

impl State {
    // The position's state and the change asked for decide together: what it becomes, or the question that gets a no.
    pub(crate) fn changed(self, change: Change, told: Option<(u32, u64)>) -> Result<State, Question>
        ensures { Changed self change told result }
    {
        match (self, change) {
            (State::Empty, Change::Enter(bar)) | (State::Open(_), Change::Close(bar)) => {
                State::standing(bar, told)
            }
            (State::Standing(_, _), Change::Strike) => Ok(State::Empty),
            (State::Standing(bar, _), Change::Open) => Ok(State::Open(bar)),
            (State::Open(kept), Change::Withdraw) => Ok(State::judged(kept, told)),
            (_, Change::Enter(_)) => Err(Question::PositionEmpty),
            (_, Change::Strike | Change::Open) => Err(Question::PositionStanding),
            (_, Change::Close(_) | Change::Withdraw) => Err(Question::SlipFits),
        }
    }

    // A new record standing, once its questions got a yes.
    pub(crate) fn standing(bar: Record, told: Option<(u32, u64)>) -> Result<State, Question>
        ensures { Stands bar told result }
    {
        let bar = CheckedRecord::new(bar)?;
        Ok(State::judged(bar, told))
    }

    // The same position under other figures.
    pub(crate) fn judged_again(self, told: Option<(u32, u64)>) -> State
        ensures { result ≡ again told self }
    {
        match self {
            State::Standing(bar, _) => State::judged(bar, told),
            State::Empty | State::Open(_) => self,
        }
    }

    // A record standing with its verdict.
    fn judged(bar: CheckedRecord, told: Option<(u32, u64)>) -> State
        ensures { result ≡ judged told bar }
    {
        State::Standing(bar, judge(&bar, told))
    }
}
