// Saving a sheet: its blocks from the start of a lent buffer.
ghost use Rattle.std.specs.Prelude.{◌≡◌, ◌*◌, ◌≤◌, ◌++◌, length, drop, IfOk};
ghost use Rattle.sheet.specs.Calls.Call.{save as called_save};
ghost use Rattle.sheet.specs.Calls.Answer.{saved};
ghost use Rattle.sheet.specs.Happened.{Happened, entries_of, plain_of};
ghost use Rattle.sheet.specs.Trip.{SavedLoads};
ghost use Rattle.sheet.specs.Stored.{position_blocks, standing_in};

use super::counts::Counts;
use super::position::State;
use super::sheet::Sheet;
use busbar::question::Question;
use feeder::tells::Feeder;
use stored::block::{BLOCK, Header, Line, write_block};

impl<F: Feeder> Sheet<F> {
    // Writes the sheet's blocks from the buffer's start, no byte after them, and answers their count.
    pub fn save(&self, buffer: &mut [u8]) -> Result<usize, Question>
        ensures happened { Happened F.Feeder.meaning self.now (called_save buffer.old) (saved result buffer.new) self.now }
        ensures loads { SavedLoads (plain_of self.now) result buffer.new }
        ensures bound { IfOk result (λ n. (n ≤ 33) × (512 * n ≤ length buffer.new)) }
    {
        let counts = Counts::of(&self.table);
        Question::NothingOpen.ask(counts.opened == 0)?;
        let standing = counts.standing();
        Question::BufferRoom.ask(BLOCK * (1 + standing) <= buffer.len())?;
        let header = Header {
            job: self.job,
            level: self.level.value,
            count: standing as u8,
        };
        let (head, lines) = buffer.split_at_mut(BLOCK);
        write_block(&header, head);
        write_lines(&self.table, lines);
        Ok(1 + standing)
    }
}

// The blocks of the standing positions. A slice of 32 and no array: that was tried, and the loop's proof did not close.
fn write_lines(table: &[State], lines: &mut [u8])
    requires few { length table.now ≤ 32 }
    requires room { 512 * standing_in (entries_of table.now) ≤ length lines.old }
    ensures { lines.new ≡ position_blocks 1 (entries_of table.now) ++ drop (512 * standing_in (entries_of table.now)) lines.old }
{
    // written by place: of the part that `chunks_exact_mut` or `iter_mut` lends the library says only how long it is afterwards
    let mut at = 0;
    for (i, state) in table.iter().enumerate() {
        if let State::Standing(bar, _) = state {
            let line = Line {
                number: i as u8 + 1,
                bar: *bar,
            };
            write_block(&line, &mut lines[at..at + BLOCK]);
            at += BLOCK;
        }
    }
}
