// Loading a stored sheet: level and positions are replaced once every question got a yes.
ghost use Rattle.std.specs.Prelude.{◌≡◌, ◌-◌, ◌/◌, ◌≤◌, length};
ghost use Rattle.sheet.specs.Calls.Call.{load as called_load};
ghost use Rattle.sheet.specs.Happened.{Happened, loaded_or_no, plain_of};
ghost use Rattle.sheet.specs.Loading.{LevelRead, LineRead, LinesRead};
ghost use Rattle.sheet.specs.Stored.{length_right};

use super::counts::Counts;
use super::position::State;
use super::sheet::{POSITIONS, Sheet};
use busbar::question::Question;
use busbar::ranged::Level;
use feeder::tells::Feeder;
use stored::block::BLOCK;
use stored::place::{LONGEST, Place};
use stored::read::{read_header, read_line};

// The question that got a no, and the number of the block that it is about.
// A rule of the stored form: a no about the whole is said of block 0.
#[derive(Clone, Copy, Debug, PartialEq, Eq)]
pub struct NotLoaded {
    pub block: usize,
    pub question: Question,
}

// A position that a block holds, and its place.
#[derive(Clone, Copy, Debug, PartialEq, Eq)]
pub struct Placed {
    pub place: Place,
    pub state: State,
}

impl<F: Feeder> Sheet<F> {
    // Level and positions of a stored sheet of the same job in the place of this one's, with the verdicts worked out.
    pub fn load(&mut self, bytes: &[u8]) -> Result<(), NotLoaded>
        ensures { Happened F.Feeder.meaning self.old (called_load bytes.now) (loaded_or_no result) self.new }
    {
        let level = self.stored_level(bytes)?;
        let told = self.feeder.tell(level.value);
        self.table = read_lines(bytes, told)?;
        self.level = level;
        Ok(())
    }

    // The level that block 0 holds: nothing may be open, the length has to be right, and so has block 0.
    fn stored_level(&self, bytes: &[u8]) -> Result<Level, NotLoaded>
        ensures { LevelRead (plain_of self.now) bytes.now result }
    {
        Question::NothingOpen.ask(Counts::of(&self.table).opened == 0)?;
        Question::StoredLength.ask(right_length(bytes.len()))?;
        let lines = bytes.len() / BLOCK - 1;
        Ok(read_header(&bytes[0..BLOCK], lines, self.job)?)
    }
}

// A question about the whole, or about block 0.
impl From<Question> for NotLoaded {
    ghost from_gives = { λ q no. no ≡ record { block = 0; question = q } };

    fn from(question: Question) -> NotLoaded {
        NotLoaded { block: 0, question }
    }
}

// Whole blocks, one at least, and no more than a sheet can fill.
fn right_length(length: usize) -> bool
    ensures { result ≡ length_right length }
{
    length % BLOCK == 0 && BLOCK <= length && length <= LONGEST
}

// The table that the blocks after block 0 make.
fn read_lines(bytes: &[u8], told: Option<(u32, u64)>) -> Result<[State; POSITIONS], NotLoaded>
    requires { 512 ≤ length bytes.now }
    ensures { LinesRead bytes.now (length bytes.now / 512 - 1) told result }
{
    let mut table = [State::Empty; POSITIONS];
    let mut last = 0;
    for (i, part) in bytes[BLOCK..].chunks_exact(BLOCK).enumerate() {
        let placed = place_line(part, last, told).map_err(|question| NotLoaded {
            block: i + 1,
            question,
        })?;
        table[placed.place.offset()] = placed.state;
        last = placed.place.value;
    }
    Ok(table)
}

// The position that one block holds: its check, its layout, then the record's questions.
fn place_line(part: &[u8], last: u32, told: Option<(u32, u64)>) -> Result<Placed, Question>
    ensures { LineRead part.now last told result }
{
    let stored = read_line(part, last)?;
    let state = State::standing(stored.bar, told)?;
    Ok(Placed {
        place: stored.place,
        state,
    })
}
