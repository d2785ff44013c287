// The list that is pinned to a board.
ghost use Rattle.std.specs.Prelude.{◌≡◌, Some, length};
ghost use Rattle.listing.specs.Text.{list_text};

use super::line::Line;
use feeder::tells::Feeder;
use sheet::position::State;
use sheet::sheet::Sheet;
use std::fmt;
use stored::place::POSITIONS;

// The states of all positions, position 1 first, and the figures that were told.
#[derive(Clone, Copy, Debug)]
pub struct List<'a> {
    pub states: &'a [State; POSITIONS],
    pub told: Option<(u32, u64)>,
    ghost full: { length states.now ≡ 32 },
}

impl<'a> List<'a> {
    // A sheet's list, under the figures that a feeder tells at the sheet's level.
    pub fn of<F: Feeder>(sheet: &'a Sheet<F>, feeder: &F) -> List<'a>
        ensures states { result.states.now ≡ sheet.now.table }
        ensures told { result.told ≡ F.Feeder.meaning feeder.now sheet.now.level.value }
    {
        List {
            states: sheet.states(),
            told: feeder.tell(sheet.level()),
        }
    }
}

impl fmt::Display for List<'_> {
    ghost output = { λ list. Some (list_text list.told list.states.now) };

    // A line for each position that is not empty.
    fn fmt<W: fmt::Write>(&self, f: &mut fmt::Formatter<W>) -> fmt::Result {
        for (before, state) in self.states.iter().enumerate() {
            if let Some(line) = Line::of(before as u32 + 1, state, self.told) {
                writeln!(f, "{line}")?;
            }
        }
        Ok(())
    }
}
