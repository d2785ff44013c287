// What two lists differ in.
use busbar::verdict::{Ground, Verdict};
use feeder::tells::Feeder;
use listing::shown::Shown;
use sheet::position::State;
use sheet::sheet::Sheet;
use std::io;
use stored::place::LAST;

// A line for each position that stands on both sheets with verdicts on different grounds.
pub(crate) fn print_changes<F: Feeder, G: Feeder>(
    rt: &impl Print,
    before: &Sheet<F>,
    after: &Sheet<G>,
) -> io::Result<()> {
    let states = before.states().iter().zip(after.states());
    for (position, (old, new)) in (1..=LAST).zip(states) {
        if let (State::Standing(_, old), State::Standing(_, new)) = (old, new) {
            if ground_of(*old) != ground_of(*new) {
                println!(rt; "{position} {}, now {}", Shown(*old), Shown(*new))?;
            }
        }
    }
    Ok(())
}

// None for an accepted bar.
fn ground_of(verdict: Verdict) -> Option<Ground> {
    verdict.err().map(|refusal| refusal.ground)
}
