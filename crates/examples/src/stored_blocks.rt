// The stored form: what is written, what comes back, and every kind of damage.
use super::bars::{bar_60_by_10, numbered};
use super::sheets::{new_sheet, shown};
use busbar::question::Question;
use busbar::section::Section;
use feeder::grid::Grid;
use samples::held::bar_of;
use sheet::sheet::Sheet;
use std::test::Fail;
use stored::block::{BLOCK, check as check_of, seal};

// A sheet with two positions, so of three blocks.
fn two_positions() -> Result<Sheet<Grid>, Question> {
    let mut sheet = new_sheet(7)?;
    sheet.enter(2, bar_of(Section::stack(2, 60, 10, 500)?))?;
    sheet.enter(5, bar_60_by_10())?;
    sheet.set_level(16_000)?;
    Ok(sheet)
}

// The answer of a load; a no by its block and number.
fn loaded(sheet: &mut Sheet<Grid>, bytes: &[u8]) -> Result<(), (usize, u32)> {
    sheet
        .load(bytes)
        .map_err(|no| (no.block, no.question.number()))
}

// One byte of a block changed, with the check made right again.
fn put(bytes: &mut [u8], block: usize, at: usize, value: u8) {
    if let Some(part) = bytes.chunks_exact_mut(BLOCK).nth(block)
        && let Some(byte) = part.get_mut(at)
    {
        *byte = value;
        seal(part);
    }
}

#[test]
fn a_new_sheet_saved(rt: HostRuntime) -> Result<(), Fail> {
    let sheet = new_sheet(7)?;
    let mut buffer = [9u8; 600];
    assert_eq!(rt; sheet.save(&mut buffer), Ok(1));
    assert_eq!(rt; check_of(&buffer), 2_255);
    assert_eq!(rt; (buffer[510], buffer[511]), (8, 207));
    assert!(rt; buffer[512..600].iter().all(|byte| *byte == 9));
    let mut small = [9u8; 511];
    assert_eq!(rt; numbered(sheet.save(&mut small)), Err(24));
    assert_eq!(rt; small[0], 9);
    Ok(())
}

#[test]
fn there_and_back(rt: HostRuntime) -> Result<(), Fail> {
    let sheet = two_positions()?;
    let mut buffer = [0u8; 1_536];
    assert_eq!(rt; sheet.save(&mut buffer), Ok(3));
    let mut copy = new_sheet(7)?;
    assert_eq!(rt; loaded(&mut copy, &buffer), Ok(()));
    assert!(rt; shown(&copy) == shown(&sheet));
    let mut other = new_sheet(8)?;
    assert_eq!(rt; loaded(&mut other, &buffer), Err((0, 33)));
    Ok(())
}

// Changes each byte by itself: how many there are, or the first whose change is not answered by 31 at its block.
// By its place, since the change is undone once all the bytes were loaded.
fn changed_each(sheet: &mut Sheet<Grid>, bytes: &mut [u8]) -> Result<usize, usize> {
    for i in 0..bytes.len() {
        bytes[i] ^= 1;
        let answer = loaded(sheet, bytes);
        bytes[i] ^= 1;
        if answer != Err((i / BLOCK, 31)) {
            return Err(i);
        }
    }
    Ok(bytes.len())
}

// Each byte of a stored sheet changed by itself: a no, and nothing changed.
#[test]
fn damaged_bytes(rt: HostRuntime) -> Result<(), Fail> {
    let sheet = two_positions()?;
    let mut buffer = [0u8; 1_536];
    assert_eq!(rt; sheet.save(&mut buffer), Ok(3));
    let mut copy = new_sheet(7)?;
    let before = shown(&copy);
    assert_eq!(rt; changed_each(&mut copy, &mut buffer), Ok(1_536));
    assert!(rt; shown(&copy) == before);
    Ok(())
}

#[test]
fn lengths(rt: HostRuntime) -> Result<(), Fail> {
    let mut sheet = new_sheet(7)?;
    let bytes = [0u8; 17_408];
    for length in [0, 511, 513, 16_897, 17_408usize] {
        assert_eq!(rt; loaded(&mut sheet, &bytes[0..length]), Err((0, 30)));
    }
    // an all-zero block has a right check and a wrong layout
    for length in [512, 16_896usize] {
        assert_eq!(rt; loaded(&mut sheet, &bytes[0..length]), Err((0, 32)));
    }
    Ok(())
}

// A byte of a block changed, and its check made right again.
#[test]
fn wrong_layouts(rt: HostRuntime) -> Result<(), Fail> {
    let sheet = two_positions()?;
    let mut buffer = [0u8; 1_536];
    assert_eq!(rt; sheet.save(&mut buffer), Ok(3));
    let mut copy = new_sheet(7)?;
    let before = shown(&copy);
    // block, byte, value, and the number of the no
    for (block, at, value, answer) in [
        (0, 0, 2, 32),
        (0, 1, 2, 32),
        (0, 8, 3, 32),
        (0, 9, 1, 32),
        (0, 3, 8, 33),
        (0, 5, 255, 21),
        (1, 0, 1, 32),
        (1, 1, 0, 32),
        (1, 1, 33, 32),
        (1, 2, 0, 32),
        (1, 2, 6, 32),
        (1, 3, 8, 32),
        (1, 53, 1, 32),
        (1, 52, 1, 10),
        (1, 52, 4, 10),
        (1, 52, 0, 10),
        (1, 4, 9, 11),
        (2, 1, 2, 32),
        (2, 1, 1, 32),
    ] {
        let mut part = buffer;
        put(&mut part, block, at, value);
        assert_eq!(rt; loaded(&mut copy, &part), Err((block, answer)));
    }
    assert!(rt; shown(&copy) == before);
    Ok(())
}

#[test]
fn a_full_sheet(rt: HostRuntime) -> Result<(), Fail> {
    let mut sheet = new_sheet(7)?;
    for position in 1..=32 {
        sheet.enter(position, bar_60_by_10())?;
    }
    sheet.set_level(16_000)?;
    let mut buffer = [0u8; 16_896];
    assert_eq!(rt; sheet.save(&mut buffer), Ok(33));
    let mut copy = new_sheet(7)?;
    assert_eq!(rt; loaded(&mut copy, &buffer), Ok(()));
    assert_eq!(rt; copy.counts().accepted, 32);
    assert!(rt; copy.may_release());
    Ok(())
}
