// A small compressor board from its first list to its release: entered, judged, mended, saved and loaded.
#![tactic(auto)]

mod bars;
mod trouble;

use bars::{heavier_bar, small_board};
use busbar::question::Question;
use busbar::record::Record;
use feeder::grid::Grid;
use feeder::tells::Feeder;
use listing::list::List;
use samples::supply::grid;
use sheet::sheet::Sheet;
use sheet::slip::Unspent;
use std::io;
use stored::block::BLOCK;
use stored::place::LONGEST;
use trouble::Trouble;

const JOB: u16 = 7;

// Another record at a position: opened, and closed with it. On a no the kept record stands again.
fn replace<F: Feeder>(sheet: &mut Sheet<F>, position: u32, bar: Record) -> Result<(), Question> {
    let slip = sheet.open(position)?;
    if let Err(Unspent { slip, question }) = sheet.close(slip, bar) {
        sheet.withdraw(slip).unwrap();
        return Err(question);
    }
    Ok(())
}

// The blocks of one sheet, loaded into a new one of the same job.
fn copied(sheet: &Sheet<Grid>, grid: Grid) -> Result<Sheet<Grid>, Question> {
    let mut buffer = [0u8; LONGEST];
    let blocks = sheet.save(&mut buffer)?;
    let mut copy = Sheet::new(JOB, grid);
    copy.load(&buffer[..BLOCK * blocks])
        .map_err(|no| no.question)?;
    Ok(copy)
}

fn work(rt: &impl Print) -> Result<(), Trouble> {
    let grid = grid()?;
    let mut sheet = Sheet::new(JOB, grid);
    for (position, bar) in small_board()? {
        sheet.enter(position, bar)?;
    }
    sheet.set_level(16_000)?;
    println!(rt; "as drawn, at 16000 A:")?;
    print!(rt; "{}", List::of(&sheet, &grid))?;
    replace(&mut sheet, 4, heavier_bar()?)?;
    println!(rt; "position 4 with heavier copper:")?;
    print!(rt; "{}", List::of(&sheet, &grid))?;
    let copy = copied(&sheet, grid)?;
    println!(rt; "saved and loaded again:")?;
    print!(rt; "{}", List::of(&copy, &grid))?;
    if copy.may_release() {
        println!(rt; "the board may be released")?;
    } else {
        println!(rt; "the board may not be released")?;
    }
    Ok(())
}

// A few lines that both programs have: each ends by troubles of its own.
fn main(rt: HostRuntime) -> io::Result<()> {
    match work(&rt) {
        Ok(()) => Ok(()),
        Err(Trouble::Output(error)) => Err(error),
        Err(trouble) => println!(rt; "{trouble}"),
    }
}
