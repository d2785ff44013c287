// The questions of a sheet: a position, the counts, whether the board may be released, level and job.
ghost use Rattle.std.specs.Prelude.{◌≡◌};
ghost use Rattle.sheet.specs.Calls.Call.{ask_counts, ask_job, ask_level, ask_position, ask_release};
ghost use Rattle.sheet.specs.Calls.Answer.{number, says};
ghost use Rattle.sheet.specs.Happened.{Happened, counts_shown, state_or_no};

use super::counts::Counts;
use super::position::State;
use super::sheet::Sheet;
use busbar::question::Question;
use feeder::tells::Feeder;
use stored::place::{POSITIONS, Place};

impl<F: Feeder> Sheet<F> {
    // A position's state, with its record unless it is empty, and its verdict if it stands.
    pub fn position(&self, position: u32) -> Result<State, Question>
        ensures { Happened F.Feeder.meaning self.now (ask_position position) (state_or_no result) self.now }
    {
        let place = Place::new(position).ok_or(Question::PositionNumber)?;
        Ok(self.table[place.offset()])
    }

    // Every position's state, that of position 1 first.
    pub fn states(&self) -> &[State; POSITIONS]
        ensures { result.now ≡ self.now.table }
    {
        &self.table
    }

    // The prospective fault current that the verdicts are for, A.
    pub fn level(&self) -> u32
        ensures happened { Happened F.Feeder.meaning self.now ask_level (number result) self.now }
        ensures value { result ≡ self.now.level.value }
    {
        self.level.value
    }

    // The number of the job.
    pub fn job(&self) -> u16
        ensures happened { Happened F.Feeder.meaning self.now ask_job (number result) self.now }
        ensures value { result ≡ self.now.job }
    {
        self.job
    }

    // The counts over all positions.
    pub fn counts(&self) -> Counts
        ensures { Happened F.Feeder.meaning self.now ask_counts (counts_shown result) self.now }
    {
        Counts::of(&self.table)
    }

    // Released exactly if one position at least is accepted, and none is refused or open.
    pub fn may_release(&self) -> bool
        ensures { Happened F.Feeder.meaning self.now ask_release (says result) self.now }
    {
        let counts = self.counts();
        counts.accepted >= 1 && counts.refused == 0 && counts.opened == 0
    }
}
