// The counts of a sheet.
ghost use Rattle.std.specs.Prelude.{◌≡◌, ◌+◌, ◌≤◌, length};
ghost use Rattle.sheet.specs.Happened.{counts_of, entries_of};
ghost use Rattle.sheet.specs.Stored.{open_ones, standing_in};

use super::position::State;
use super::sheet::POSITIONS;

// How many positions are accepted, refused and open.
#[derive(Clone, Copy, Debug, Default, PartialEq, Eq)]
pub struct Counts {
    pub accepted: u32,
    pub refused: u32,
    pub opened: u32,
}

impl Counts {
    // The counts over a table of positions.
    pub(crate) fn of(table: &[State; POSITIONS]) -> Counts
        ensures value { result ≡ counts_of table.now }
        ensures standing { result.accepted + result.refused ≡ standing_in (entries_of table.now) }
        ensures opened { result.opened ≡ open_ones (entries_of table.now) }
        ensures few { result.accepted + result.refused + result.opened ≤ 32 }
    {
        let mut counts = Counts::default();
        for state in table {
            match state {
                State::Empty => {}
                State::Standing(_, Ok(())) => counts.accepted += 1,
                State::Standing(_, Err(_)) => counts.refused += 1,
                State::Open(_) => counts.opened += 1,
            }
        }
        counts
    }

    // How many stand, whatever their verdicts.
    pub(crate) fn standing(self) -> usize
        ensures { result ≡ self.accepted + self.refused }
    {
        self.accepted as usize + self.refused as usize
    }
}
