// The calls of a sheet: each number of each call, and that a no changes nothing.
ghost use Rattle.sheet.specs.Happened.{plain_of};
ghost use Rattle.sheet.specs.Slips.{Fits};

use super::bars::{bar_60_by_10, numbered};
use busbar::question::Question;
use busbar::record::Record;
use feeder::grid::Grid;
use feeder::tells::Feeder;
use samples::supply::grid;
use sheet::counts::Counts;
use sheet::position::State;
use sheet::sheet::{POSITIONS, Sheet};
use sheet::slip::{Slip, Unspent};
use std::test::Fail;

pub(crate) fn new_sheet(job: u16) -> Result<Sheet<Grid>, Question> {
    Ok(Sheet::new(job, grid()?))
}

// A record of which the span gets a no.
fn bad_bar() -> Record {
    Record {
        span: 0,
        ..bar_60_by_10()
    }
}

// What a sheet shows: its level, and every position's state.
pub(crate) fn shown<F: Feeder>(sheet: &Sheet<F>) -> (u32, [State; POSITIONS]) {
    (sheet.level(), *sheet.states())
}

// The answer of opening; the slip is withdrawn at once.
fn opened(sheet: &mut Sheet<Grid>, position: u32) -> Result<(), Question> {
    let slip = sheet.open(position)?;
    sheet.withdraw(slip).unwrap();
    Ok(())
}

#[test]
fn numbers_of_the_calls(rt: HostRuntime) -> Result<(), Fail> {
    let mut sheet = new_sheet(1)?;
    assert_eq!(rt; sheet.job(), 1);
    sheet.enter(1, bar_60_by_10())?;
    sheet.set_level(16_000)?;
    let before = shown(&sheet);
    for (position, answer) in [(0, 18), (33, 18), (1, 19), (2, 11)] {
        assert_eq!(rt; numbered(sheet.enter(position, bad_bar())), Err(answer));
    }
    for (position, answer) in [(0, 18), (33, 18), (2, 20)] {
        assert_eq!(rt; numbered(sheet.strike(position)), Err(answer));
        assert_eq!(rt; numbered(opened(&mut sheet, position)), Err(answer));
    }
    for level in [0, 99, 100_001, u32::MAX] {
        assert_eq!(rt; numbered(sheet.set_level(level)), Err(21));
    }
    for position in [0, 33, u32::MAX] {
        assert_eq!(rt; numbered(sheet.position(position)), Err(18));
    }
    assert!(rt; shown(&sheet) == before);
    opened(&mut sheet, 1)?;
    assert!(rt; shown(&sheet) == before);
    sheet.strike(1)?;
    assert_eq!(rt; sheet.position(1)?, State::Empty);
    Ok(())
}

// Every standing verdict follows the level, and the release follows the verdicts.
#[test]
fn a_revised_level(rt: HostRuntime) -> Result<(), Fail> {
    let mut sheet = new_sheet(1)?;
    assert!(rt; !sheet.may_release());
    for position in [1, 32] {
        sheet.enter(position, bar_60_by_10())?;
    }
    assert_eq!(rt; sheet.counts().refused, 2);
    assert!(rt; !sheet.may_release());
    sheet.set_level(16_000)?;
    assert_eq!(rt; sheet.counts().accepted, 2);
    assert_eq!(rt; sheet.counts().refused, 0);
    assert!(rt; sheet.may_release());
    Ok(())
}

// The answer of closing with a slip that fits; on a no the slip is withdrawn.
fn closed(sheet: &mut Sheet<Grid>, slip: Slip, bar: Record) -> Result<(), Question>
    requires { Fits slip (plain_of sheet.old) }
{
    if let Err(Unspent { slip, question }) = sheet.close(slip, bar) {
        sheet.withdraw(slip).unwrap();
        return Err(question);
    }
    Ok(())
}

// The answers while a position is open. The slip is spent at the end.
#[test]
fn an_open_position(rt: HostRuntime) -> Result<(), Fail> {
    let mut sheet = new_sheet(1)?;
    sheet.enter(3, bar_60_by_10())?;
    sheet.set_level(16_000)?;
    let before = shown(&sheet);
    let slip = sheet.open(3)?;
    let mut buffer = [0u8; 2_048];
    let saved = numbered(sheet.save(&mut buffer));
    let closed = numbered(closed(&mut sheet, slip, bad_bar()));
    assert_eq!(rt; (saved, closed), (Err(23), Err(11)));
    let counts = Counts {
        accepted: 1,
        refused: 0,
        opened: 0,
    };
    assert_eq!(rt; sheet.counts(), counts);
    assert!(rt; shown(&sheet) == before);
    Ok(())
}

// A slip tried on a sheet that did not give it, and withdrawn from the one that did.
fn tried_elsewhere(
    mine: &mut Sheet<Grid>,
    other: &mut Sheet<Grid>,
    position: u32,
) -> Result<(), Question> {
    let slip = mine.open(position)?;
    if let Err(Unspent { slip, question }) = other.withdraw(slip) {
        mine.withdraw(slip).unwrap();
        return Err(question);
    }
    Ok(())
}

#[test]
fn slips_of_another_sheet(rt: HostRuntime) -> Result<(), Fail> {
    let mut mine = new_sheet(1)?;
    mine.enter(3, bar_60_by_10())?;
    for job in [2, 1] {
        let mut other = new_sheet(job)?;
        other.enter(3, bar_60_by_10())?;
        let before = shown(&other);
        assert_eq!(rt;
            numbered(tried_elsewhere(&mut mine, &mut other, 3)),
            Err(22)
        );
        assert!(rt; shown(&other) == before);
    }
    assert_eq!(rt; mine.counts().opened, 0);
    Ok(())
}
