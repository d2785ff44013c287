// A rink's compressor board, as it was tendered and after the late edits, to its release.
#![tactic(auto)]

mod answers;
mod bars;
mod changes;
mod lists;
mod supply;
mod trouble;

use answers::print_answers;
use changes::print_changes;
use feeder::fuse::Fuse;
use feeder::grid::Grid;
use feeder::motors::Motors;
use history::boards::Both;
use history::both::{Board, replay_both};
use history::call::Answer;
use history::end::Ended;
use listing::list::List;
use lists::{REVISED, TENDERED, revision, tender};
use sheet::sheet::Sheet;
use std::alloc::Global;
use std::io;
use stored::block::BLOCK;
use stored::place::POSITIONS;
use supply::supply;
use trouble::Trouble;

type Supply = Fuse<Motors<Grid>>;

// Both boards through their lists.
fn run(heap: Global) -> Result<Both<Supply, Supply>, Trouble> {
    let first = Board {
        job: TENDERED,
        feeder: supply(heap)?,
        calls: tender(heap)?,
    };
    let second = Board {
        job: REVISED,
        feeder: supply(heap)?,
        calls: revision(heap)?,
    };
    replay_both(heap, first, second).map_err(|not_run| Trouble::from(not_run.why))
}

// What both lists answered, and the sheets after them.
fn print_both(rt: &impl Print, both: &Both<Supply, Supply>, supply: &Supply) -> io::Result<()> {
    println!(rt; "as tendered, job {TENDERED}:")?;
    print_answers(rt, &both.first_answers)?;
    print!(rt; "{}", List::of(&both.first, supply))?;
    println!(rt; "after the late edits, job {REVISED}:")?;
    print_answers(rt, &both.second_answers)?;
    print!(rt; "{}", List::of(&both.second, supply))
}

// The blocks that were saved, loaded into a new sheet of the same job.
fn loaded(supply: Supply, answers: Vec<Answer>) -> Result<Sheet<Supply>, Trouble> {
    let mut sheet = Sheet::new(REVISED, supply);
    for answer in answers {
        if let Answer::Saved(Ok(blocks), mut buffer) = answer {
            // an answer is plain data, which does not say that the blocks fit the buffer
            buffer.truncate(BLOCK * blocks.min(1 + POSITIONS));
            sheet.load(&buffer).map_err(|no| no.question)?;
        }
    }
    Ok(sheet)
}

// What changed, and whether the saved sheet may be released.
fn finish(rt: &impl Print, ended: Ended<Supply, Supply>, supply: Supply) -> Result<(), Trouble> {
    println!(rt; "what the late edits changed:")?;
    print_changes(rt, &ended.first, &ended.second)?;
    if loaded(supply, ended.second_answers)?.may_release() {
        println!(rt; "saved, loaded and released")?;
    } else {
        println!(rt; "the board may not be released")?;
    }
    Ok(())
}

fn work(rt: &impl Print, heap: Global) -> Result<(), Trouble> {
    let told = supply(heap)?;
    let both = run(heap)?;
    // the slips that are out come back first, whatever printing does
    let printed = print_both(rt, &both, &told);
    let ended = both.end();
    printed?;
    finish(rt, ended, told)
}

// A few lines that both programs have: each ends by troubles of its own.
fn main(rt: HostRuntime) -> io::Result<()> {
    match work(&rt, rt.alloc()) {
        Ok(()) => Ok(()),
        Err(Trouble::Output(error)) => Err(error),
        Err(trouble) => println!(rt; "{trouble}"),
    }
}
