// The answers of a list, as they are printed.
use history::call::Answer;
use listing::shown::Shown;
use sheet::position::State;
use std::{fmt, io};

// A line for each answer that is more than a done, with the number of its call.
pub(crate) fn print_answers(rt: &impl Print, answers: &[Answer]) -> io::Result<()> {
    for (before, answer) in answers.iter().enumerate() {
        if !matches!(answer, Answer::Done) {
            println!(rt; "  call {}: {}", before + 1, InWords(answer))?;
        }
    }
    Ok(())
}

// An answer in words.
#[derive(Drop)]
struct InWords<'a>(&'a Answer);

impl fmt::Display for InWords<'_> {
    fn fmt<W: fmt::Write>(&self, f: &mut fmt::Formatter<W>) -> fmt::Result {
        match self.0 {
            Answer::Done => write!(f, "done"),
            Answer::Refused(question) => write!(f, "no, question {question}"),
            Answer::GaveSlip { job, position } => {
                write!(f, "slip of job {job} for position {position}")
            }
            Answer::Saved(Ok(blocks), _) => write!(f, "saved in {blocks} blocks"),
            Answer::Saved(Err(question), _) => write!(f, "not saved, question {question}"),
            Answer::NotLoaded(no) => {
                write!(
                    f,
                    "not loaded, block {}, question {}",
                    no.block, no.question
                )
            }
            Answer::Shows(State::Empty) => write!(f, "empty"),
            Answer::Shows(State::Standing(_, verdict)) => write!(f, "stands, {}", Shown(*verdict)),
            Answer::Shows(State::Open(_)) => write!(f, "open"),
            Answer::Counted(counts) => write!(
                f,
                "{} accepted, {} refused, {} open",
                counts.accepted, counts.refused, counts.opened
            ),
            Answer::Says(true) => write!(f, "may be released"),
            Answer::Says(false) => write!(f, "may not be released"),
            Answer::Number(number) => write!(f, "{number}"),
            Answer::NotInHand => write!(f, "that slip is not in hand"),
        }
    }
}
