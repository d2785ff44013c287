// A call on a sheet, and its answer, as values.
ghost use Rattle.std.specs.Prelude.{◌≡◌, MatchResult};
ghost use Rattle.history.specs.declared.call.Answer.TheVariants as given;

use busbar::question::Question;
use busbar::record::Record;
use sheet::counts::Counts;
use sheet::load::NotLoaded;
use sheet::position::State;

// One case for each call and each question of the sheet. A slip counts as its job and position,
// two fields as in the definition, since each is used by itself.
#[derive(Drop)]
pub enum Call {
    Enter {
        position: u32,
        bar: Record,
    },
    Strike {
        position: u32,
    },
    SetLevel {
        level: u32,
    },
    Open {
        position: u32,
    },
    Close {
        job: u16,
        position: u32,
        bar: Record,
    },
    Withdraw {
        job: u16,
        position: u32,
    },
    // the buffer that the blocks are written into
    Save {
        buffer: Vec<u8>,
    },
    Load {
        bytes: Vec<u8>,
    },
    Position {
        position: u32,
    },
    Counts,
    MayRelease,
    Level,
    Job,
}

// One case for each kind of answer.
#[derive(Drop)]
pub enum Answer {
    Done,
    Refused(Question),
    GaveSlip { job: u16, position: u32 },
    // how many blocks were written, or the question, and the buffer afterwards
    Saved(Result<usize, Question>, Vec<u8>),
    NotLoaded(NotLoaded),
    Shows(State),
    Counted(Counts),
    Says(bool),
    Number(u32),
    // the slip of a close or a withdrawal was not in hand, so the call could not be made
    NotInHand,
}

// What a call gave, as its answer: a value where it has one to show, and each no as it is.

impl From<()> for Answer {
    ghost from_gives = { λ _ answer. answer ≡ given.Done };

    fn from(_done: ()) -> Answer {
        Answer::Done
    }
}

impl From<State> for Answer {
    ghost from_gives = { λ state answer. answer ≡ given.Shows state };

    fn from(state: State) -> Answer {
        Answer::Shows(state)
    }
}

impl From<Question> for Answer {
    ghost from_gives = { λ question answer. answer ≡ given.Refused question };

    fn from(question: Question) -> Answer {
        Answer::Refused(question)
    }
}

impl From<NotLoaded> for Answer {
    ghost from_gives = { λ no_to answer. answer ≡ given.NotLoaded no_to };

    fn from(no: NotLoaded) -> Answer {
        Answer::NotLoaded(no)
    }
}

impl<T: Into<Answer>, E: Into<Answer>> From<Result<T, E>> for Answer {
    ghost from_gives = { λ outcome answer. MatchResult outcome (λ value. T.converts value answer) (λ no_to. E.converts no_to answer) };

    fn from(outcome: Result<T, E>) -> Answer {
        match outcome {
            Ok(value) => value.into(),
            Err(no) => no.into(),
        }
    }
}
