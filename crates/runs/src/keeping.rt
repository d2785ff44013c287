// Saved in one run and loaded in a later one: the noes of both, and the same blocks again.
use super::bars::Bar;
use super::boards::{Lists, run};
use super::said::Said;
use super::steps::{Change, Step, Whose};
use history::call::Answer;
use samples::supply::grid;
use std::alloc::Global;
use std::test::Fail;
use stored::block::BLOCK;
use stored::place::POSITIONS;

// Buffers that are too short, and a save while a position is open; then the blocks of positions 2, 5 and 32.
const SAVING: [(Step, Said); 13] = [
    (Step::Enter(2, Bar::Stack), Said::Done),
    (Step::Enter(5, Bar::Flat), Said::Done),
    (Step::Enter(32, Bar::Light), Said::Done),
    (Step::SetLevel(16_000), Said::Done),
    (Step::Save(2_047), Said::NotSaved(24)),
    (Step::Open(5), Said::Slip(5)),
    (Step::Save(2_048), Said::NotSaved(23)),
    (Step::Save(0), Said::NotSaved(23)),
    (Step::Close(Whose::Own, 5, Bar::Tube), Said::Done),
    (Step::Save(3_000), Said::Saved(4)),
    (Step::Save(2_048), Said::Saved(4)),
    (Step::Strike(5), Said::Done),
    (Step::Save(1_536), Said::Saved(3)),
];

// The stored bytes in every kind of disrepair, with a call after each no, and at last as they were saved.
const LOADING: [(Step, Said); 54] = [
    (Step::Enter(1, Bar::Flat), Said::Done),
    (Step::SetLevel(25_000), Said::Done),
    (Step::Load(Change::First(0)), Said::NotLoaded(0, 30)),
    (Step::Strike(1), Said::Done),
    (Step::Load(Change::First(511)), Said::NotLoaded(0, 30)),
    (Step::Enter(1, Bar::Flat), Said::Done),
    (Step::Load(Change::First(2_047)), Said::NotLoaded(0, 30)),
    (
        Step::Position(1),
        Said::Refused(600_000, 4, 180_031, 180_000),
    ),
    (Step::Load(Change::Spoil(3, 8)), Said::NotLoaded(0, 31)),
    (Step::Level, Said::Number(25_000)),
    (Step::Load(Change::Spoil(1_536, 1)), Said::NotLoaded(3, 31)),
    (Step::Counts, Said::Counted(0, 1, 0)),
    (Step::Load(Change::Put(0, 0, 2)), Said::NotLoaded(0, 32)),
    (Step::Strike(1), Said::Done),
    (Step::Load(Change::First(1_536)), Said::NotLoaded(0, 32)),
    (Step::Enter(3, Bar::Tube), Said::Done),
    (Step::Load(Change::Put(0, 3, 8)), Said::NotLoaded(0, 33)),
    (Step::SetLevel(9_000), Said::Done),
    (Step::Load(Change::Put(0, 5, 255)), Said::NotLoaded(0, 21)),
    (Step::Level, Said::Number(9_000)),
    (Step::Load(Change::Put(1, 1, 0)), Said::NotLoaded(1, 32)),
    (Step::Strike(3), Said::Done),
    (Step::Load(Change::Put(2, 1, 2)), Said::NotLoaded(2, 32)),
    (Step::Enter(4, Bar::Light), Said::Done),
    (Step::Load(Change::Put(3, 2, 6)), Said::NotLoaded(3, 32)),
    (Step::MayRelease, Said::Yes),
    (Step::Load(Change::Put(1, 52, 1)), Said::NotLoaded(1, 10)),
    (Step::Strike(4), Said::Done),
    (Step::Load(Change::Put(1, 4, 9)), Said::NotLoaded(1, 11)),
    (Step::Enter(4, Bar::Light), Said::Done),
    (Step::Load(Change::Put(1, 8, 1)), Said::NotLoaded(1, 12)),
    (Step::Strike(4), Said::Done),
    (Step::Load(Change::Put(1, 12, 1)), Said::NotLoaded(1, 13)),
    (Step::Enter(4, Bar::Light), Said::Done),
    (Step::Load(Change::Put(1, 16, 1)), Said::NotLoaded(1, 14)),
    (Step::Strike(4), Said::Done),
    (Step::Load(Change::Put(1, 20, 1)), Said::NotLoaded(1, 15)),
    (Step::Enter(4, Bar::Light), Said::Done),
    (Step::Load(Change::Put(1, 24, 1)), Said::NotLoaded(1, 16)),
    (Step::Strike(4), Said::Done),
    (Step::Load(Change::Put(1, 50, 4)), Said::NotLoaded(1, 17)),
    (Step::Enter(4, Bar::Light), Said::Done),
    (Step::Open(4), Said::Slip(4)),
    (Step::Load(Change::Nothing), Said::NotLoaded(0, 23)),
    (Step::Position(4), Said::Open(240_000)),
    (Step::Load(Change::First(0)), Said::NotLoaded(0, 23)),
    (Step::Withdraw(Whose::Own, 4), Said::Done),
    (Step::Load(Change::Nothing), Said::Done),
    (Step::Position(2), Said::Accepted(1_200_000)),
    (Step::Position(4), Said::Empty),
    (Step::Position(5), Said::Accepted(706_857)),
    (
        Step::Position(32),
        Said::Refused(240_000, 4, 307_269, 180_000),
    ),
    (Step::Level, Said::Number(16_000)),
    (Step::Save(2_048), Said::Saved(4)),
];

// A sheet of another job does not take them.
const ELSEWHERE: [(Step, Said); 3] = [
    (Step::Load(Change::Nothing), Said::NotLoaded(0, 33)),
    (Step::Enter(2, Bar::Flat), Said::Done),
    (Step::Counts, Said::Counted(0, 1, 0)),
];

// The blocks of the first save among the answers.
fn saved(answers: Vec<Answer>) -> Option<Vec<u8>> {
    answers.into_iter().find_map(|answer| match answer {
        Answer::Saved(Ok(blocks), mut buffer) => {
            // an answer is plain data, which does not say that the blocks fit the buffer
            buffer.truncate(BLOCK * blocks.min(1 + POSITIONS));
            Some(buffer)
        }
        _ => None,
    })
}

// The blocks that a run of these lists saves first on its first board.
fn blocks_of(heap: Global, lists: Lists) -> Result<Vec<u8>, Fail> {
    let grid = grid()?;
    let answers = run(heap, grid, grid, lists)?;
    Ok(saved(answers).ok_or("nothing was saved")?)
}

// What a later run saves after it loaded these blocks.
fn saved_again(heap: Global, blocks: &[u8]) -> Result<Vec<u8>, Fail> {
    let loading = Lists {
        stored: blocks,
        ..Lists::of(&LOADING, &ELSEWHERE)
    };
    blocks_of(heap, loading)
}

#[test]
fn saved_and_loaded_later(rt: HostRuntime) -> Result<(), Fail> {
    let blocks = blocks_of(rt.alloc(), Lists::of(&SAVING, &[]))?;
    let again = saved_again(rt.alloc(), &blocks)?;
    assert!(rt; again == blocks);
    Ok(())
}
