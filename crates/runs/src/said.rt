// An answer as a list says it, and the comparison of all answers with a list.
use super::steps::Step;
use history::call::Answer;
use sheet::position::State;

// One case for each answer. A bar counts as its area, A of its section; a question and a ground as their numbers,
// which are those of the model that the lists were worked out by.
#[derive(Clone, Copy, Debug, PartialEq, Eq)]
pub(crate) enum Said {
    Done,
    // the number of the question
    No(u32),
    // the sheet's own slip for this position
    Slip(u32),
    // how many blocks
    Saved(usize),
    NotSaved(u32),
    // block and number
    NotLoaded(usize, u32),
    Empty,
    Accepted(u32),
    // the bar, then ground, figure and limit
    Refused(u32, u32, u64, u64),
    Open(u32),
    // accepted, refused and open
    Counted(u32, u32, u32),
    Yes,
    Not,
    Number(u32),
    NotInHand,
}

// What the sheet of this job answered. A slip of another job is none that a list can say.
fn said_by(answer: &Answer, job: u16) -> Option<Said> {
    Some(match answer {
        Answer::Done => Said::Done,
        Answer::Refused(question) => Said::No(question.number()),
        Answer::GaveSlip { job: of, position } if *of == job => Said::Slip(*position),
        Answer::GaveSlip { .. } => return None,
        Answer::Saved(Ok(blocks), _) => Said::Saved(*blocks),
        Answer::Saved(Err(question), _) => Said::NotSaved(question.number()),
        Answer::NotLoaded(no) => Said::NotLoaded(no.block, no.question.number()),
        Answer::Shows(state) => Said::from(*state),
        Answer::Counted(counts) => Said::Counted(counts.accepted, counts.refused, counts.opened),
        Answer::Says(true) => Said::Yes,
        Answer::Says(false) => Said::Not,
        Answer::Number(number) => Said::Number(*number),
        Answer::NotInHand => Said::NotInHand,
    })
}

// What a position shows.
impl From<State> for Said {
    fn from(state: State) -> Said {
        match state {
            State::Empty => Said::Empty,
            State::Standing(bar, Ok(())) => Said::Accepted(bar.bar.section.area),
            State::Standing(bar, Err(no)) => {
                Said::Refused(
                    bar.bar.section.area,
                    no.ground.number(),
                    no.figure,
                    no.limit,
                )
            }
            State::Open(bar) => Said::Open(bar.bar.section.area),
        }
    }
}

// The place of the first answer that is not the list's.
pub(crate) fn first_other(answers: &[Answer], job: u16, steps: &[(Step, Said)]) -> Option<usize> {
    answers
        .iter()
        .zip(steps)
        .position(|(answer, (_, said))| said_by(answer, job) != Some(*said))
}
