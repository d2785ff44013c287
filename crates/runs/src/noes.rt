// A no of every number of a record and of the calls, in a list: the call after each is carried out.
use super::bars::Bar;
use super::boards::{FIRST, List, Lists, run_under_grids};
use super::said::Said;
use super::steps::{Step, Whose};
use std::test::Fail;

// Positions and levels outside their range, states that do not fit, and slips that are not in hand.
const CALLS: [(Step, Said); 49] = [
    (Step::Enter(0, Bar::Flat), Said::No(18)),
    (Step::Enter(1, Bar::Flat), Said::Done),
    (Step::Enter(33, Bar::Flat), Said::No(18)),
    (Step::Enter(32, Bar::Light), Said::Done),
    (Step::Enter(1, Bar::Stack), Said::No(19)),
    (
        Step::Position(1),
        Said::Refused(600_000, 2, 11_000_000_000_000, 3_600_000_000_000),
    ),
    (Step::Strike(0), Said::No(18)),
    (Step::SetLevel(16_000), Said::Done),
    (Step::Strike(33), Said::No(18)),
    (Step::Position(1), Said::Accepted(600_000)),
    (Step::Strike(2), Said::No(20)),
    (Step::Enter(2, Bar::Stack), Said::Done),
    (Step::Open(0), Said::No(18)),
    (
        Step::Position(32),
        Said::Refused(240_000, 4, 307_269, 180_000),
    ),
    (Step::Open(33), Said::No(18)),
    (Step::Open(1), Said::Slip(1)),
    (Step::Open(3), Said::No(20)),
    (Step::Counts, Said::Counted(1, 1, 1)),
    (Step::Open(1), Said::No(20)),
    (Step::Strike(2), Said::Done),
    (Step::Strike(1), Said::No(20)),
    (Step::Enter(2, Bar::Tube), Said::Done),
    (Step::Enter(1, Bar::Flat), Said::No(19)),
    (Step::Position(1), Said::Open(600_000)),
    (Step::Position(0), Said::No(18)),
    (Step::Position(2), Said::Accepted(706_857)),
    (Step::Position(33), Said::No(18)),
    (Step::Strike(2), Said::Done),
    (Step::SetLevel(99), Said::No(21)),
    (Step::Level, Said::Number(16_000)),
    (Step::SetLevel(100_001), Said::No(21)),
    (Step::SetLevel(100_000), Said::Done),
    (Step::SetLevel(0), Said::No(21)),
    (Step::SetLevel(100), Said::Done),
    (Step::Counts, Said::Counted(1, 0, 1)),
    (Step::MayRelease, Said::Not),
    (Step::Withdraw(Whose::Own, 2), Said::NotInHand),
    (Step::Enter(2, Bar::Flat), Said::Done),
    (Step::Close(Whose::Own, 33, Bar::Flat), Said::NotInHand),
    (Step::Strike(2), Said::Done),
    (Step::Close(Whose::Other, 1, Bar::Flat), Said::NotInHand),
    (Step::Withdraw(Whose::Own, 1), Said::Done),
    (Step::Withdraw(Whose::Own, 1), Said::NotInHand),
    (Step::Strike(32), Said::Done),
    (Step::Close(Whose::Own, 1, Bar::Flat), Said::NotInHand),
    (Step::Counts, Said::Counted(1, 0, 0)),
    (Step::MayRelease, Said::Yes),
    (Step::Job, Said::Number(7)),
    (Step::Open(1), Said::Slip(1)),
];

// The other board's slip, at a position that is empty, standing and open here.
const SLIPS: [(Step, Said); 9] = [
    (Step::Withdraw(Whose::Other, 1), Said::No(22)),
    (Step::Enter(1, Bar::Stack), Said::Done),
    (Step::Close(Whose::Other, 1, Bar::Flat), Said::No(22)),
    (Step::Open(1), Said::Slip(1)),
    (Step::Withdraw(Whose::Other, 1), Said::No(22)),
    (Step::Close(Whose::Other, 1, Bar::Bad(11)), Said::No(22)),
    (Step::Close(Whose::Own, 1, Bar::Tube), Said::Done),
    (
        Step::Position(1),
        Said::Refused(706_857, 2, 11_000_000_000_000, 4_996_468_184_490),
    ),
    (Step::Job, Said::Number(65_535)),
];

#[test]
fn of_the_calls(rt: HostRuntime) -> Result<(), Fail> {
    let lists = Lists {
        first: List {
            steps: &CALLS,
            end: &[
                (1, Said::Accepted(600_000)),
                (2, Said::Empty),
                (32, Said::Empty),
            ],
        },
        second: List {
            steps: &SLIPS,
            end: &[],
        },
        hand: &[(FIRST, 1)],
        stored: &[],
    };
    run_under_grids(rt.alloc(), lists)
}

// A bad record entered, and closed with: the good one after it stands.
fn about_record(question: u32) -> [(Step, Said); 8] {
    let bad = Bar::Bad(question);
    [
        (Step::SetLevel(16_000), Said::Done),
        (Step::Enter(1, bad), Said::No(question)),
        (Step::Enter(1, Bar::Flat), Said::Done),
        (Step::Open(1), Said::Slip(1)),
        (Step::Close(Whose::Own, 1, bad), Said::No(question)),
        (Step::Position(1), Said::Open(600_000)),
        (Step::Close(Whose::Own, 1, Bar::Stack), Said::Done),
        (Step::Position(1), Said::Accepted(1_200_000)),
    ]
}

#[test]
fn of_records(rt: HostRuntime) -> Result<(), Fail> {
    for question in 10..18u32 {
        let list = about_record(question);
        run_under_grids(rt.alloc(), Lists::of(&list, &list))?;
    }
    Ok(())
}
