// The two lists of calls: the board as it was tendered, and the board with the late edits.
use super::bars::{mended_bars, tendered};
use super::trouble::Trouble;
use history::call::Call;
use std::alloc::Global;
use stored::place::LONGEST;

// The number of each board's job.
pub(crate) const TENDERED: u16 = 701;

pub(crate) const REVISED: u16 = 702;

// Every bar at its position, and then these calls.
fn entered_then(heap: Global, more: Vec<Call>) -> Result<Vec<Call>, Trouble> {
    let mut calls = Vec::new(heap);
    for (position, bar) in tendered()? {
        calls.push(Call::Enter { position, bar })?;
    }
    calls.extend(more)?;
    Ok(calls)
}

// As tendered: a new sheet has a level that the fuse tells nothing of; at 16,000 A it is judged. Position 6 is left open.
pub(crate) fn tender(heap: Global) -> Result<Vec<Call>, Trouble> {
    let more = vec![in heap;
        Call::Position { position: 1 },
        Call::SetLevel { level: 16_000 },
        Call::Counts,
        Call::MayRelease,
        Call::Open { position: 6 },
    ]?;
    entered_then(heap, more)
}

// The same board, mended position by position, for a revised level, and saved.
pub(crate) fn revision(heap: Global) -> Result<Vec<Call>, Trouble> {
    let bars = mended_bars()?;
    let more = vec![
        in heap;
        Call::SetLevel { level: 16_000 },
        // a position has to be opened first
        Call::Enter { position: 2, bar: bars.stronger },
        Call::Open { position: 2 },
        Call::Close { job: REVISED, position: 2, bar: bars.stronger },
        Call::Open { position: 4 },
        Call::Close { job: REVISED, position: 4, bar: bars.supported },
        Call::Open { position: 5 },
        Call::Close { job: REVISED, position: 5, bar: bars.stack },
        // the slip of the other board does not fit here, and there is none for position 8
        Call::Withdraw { job: TENDERED, position: 6 },
        Call::Withdraw { job: REVISED, position: 8 },
        Call::Strike { position: 9 },
        Call::Enter { position: 9, bar: bars.thicker },
        Call::SetLevel { level: 18_000 },
        Call::Counts,
        Call::MayRelease,
        Call::Save { buffer: vec![in heap; 0; LONGEST]? },
    ]?;
    entered_then(heap, more)
}
