// A step of a list, and the call that it stands for.
use super::bars::Bar;
use super::said::Said;
use history::call::Call;
use std::alloc::{AllocError, Global};
use stored::block::{BLOCK, seal};

// Of the two boards that are run, whose slip is meant.
#[derive(Clone, Copy)]
pub(crate) enum Whose {
    Own,
    Other,
}

// One case for each call. A slip counts as its board and position.
#[derive(Clone, Copy)]
pub(crate) enum Step {
    Enter(u32, Bar),
    Strike(u32),
    SetLevel(u32),
    Open(u32),
    Close(Whose, u32, Bar),
    Withdraw(Whose, u32),
    // into a buffer of this length
    Save(usize),
    // the stored bytes, changed
    Load(Change),
    Position(u32),
    Counts,
    MayRelease,
    Level,
    Job,
}

// What is done to stored bytes before they are loaded.
#[derive(Clone, Copy)]
pub(crate) enum Change {
    Nothing,
    // only so many bytes of them
    First(usize),
    // one byte of a block changed, with the check made right again
    Put(usize, usize, u8),
    // one byte changed, and nothing else
    Spoil(usize, u8),
}

// What the calls of one board are made of: its job and the other's, and the stored bytes.
#[derive(Clone, Copy)]
pub(crate) struct Given<'a> {
    pub(crate) heap: Global,
    pub(crate) own: u16,
    pub(crate) other: u16,
    pub(crate) stored: &'a [u8],
}

impl Given<'_> {
    // The calls of a list of steps.
    pub(crate) fn calls(&self, steps: &[(Step, Said)]) -> Result<Vec<Call>, AllocError> {
        let mut calls = Vec::new(self.heap);
        for (step, _) in steps {
            calls.push(self.call(*step)?)?;
        }
        Ok(calls)
    }

    fn call(&self, step: Step) -> Result<Call, AllocError> {
        Ok(match step {
            Step::Enter(position, bar) => Call::Enter {
                position,
                bar: bar.record(),
            },
            Step::Strike(position) => Call::Strike { position },
            Step::SetLevel(level) => Call::SetLevel { level },
            Step::Open(position) => Call::Open { position },
            Step::Close(whose, position, bar) => Call::Close {
                job: self.job_of(whose),
                position,
                bar: bar.record(),
            },
            Step::Withdraw(whose, position) => Call::Withdraw {
                job: self.job_of(whose),
                position,
            },
            Step::Save(length) => Call::Save {
                buffer: vec![in self.heap; 0u8; length]?,
            },
            Step::Load(change) => Call::Load {
                bytes: self.changed(change)?,
            },
            Step::Position(position) => Call::Position { position },
            Step::Counts => Call::Counts,
            Step::MayRelease => Call::MayRelease,
            Step::Level => Call::Level,
            Step::Job => Call::Job,
        })
    }

    fn job_of(&self, whose: Whose) -> u16 {
        match whose {
            Whose::Own => self.own,
            Whose::Other => self.other,
        }
    }

    // A copy of the stored bytes with the change.
    fn changed(&self, change: Change) -> Result<Vec<u8>, AllocError> {
        let mut bytes = self.stored.to_vec(self.heap)?;
        match change {
            Change::Nothing => {}
            Change::First(length) => bytes.truncate(length),
            Change::Put(block, at, value) => put(&mut bytes, block, at, value),
            Change::Spoil(at, value) => {
                if let Some(byte) = bytes.get_mut(at) {
                    *byte = value;
                }
            }
        }
        Ok(bytes)
    }
}

// The same few lines as in the examples: one copy in `samples` would be public, under a contract longer than they are.
fn put(bytes: &mut [u8], block: usize, at: usize, value: u8) {
    if let Some(part) = bytes.chunks_exact_mut(BLOCK).nth(block)
        && let Some(byte) = part.get_mut(at)
    {
        *byte = value;
        seal(part);
    }
}
