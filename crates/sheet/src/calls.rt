// The calls that change a sheet.
ghost use Rattle.std.specs.Prelude.{◌≡◌, true, false, is_ok, IfOk, OnErr};
ghost use Rattle.sheet.specs.Calls.Call.{close as called_close, enter as called_enter, opening as called_open, set_level as called_set_level, strike as called_strike, withdraw as called_withdraw};
ghost use Rattle.sheet.specs.Calls.Answer.{done};
ghost use Rattle.sheet.specs.Happened.{ChangedAt, ChangedBySlip, Happened, Rejudged, SlipBack, Sound, answered, plain_of, slip_or_no, spent_or_no};
ghost use Rattle.sheet.specs.Plain.{fresh};
ghost use Rattle.sheet.specs.Slips.{Fits};

use super::position::{Change, State};
use super::sheet::{POSITIONS, Sheet};
use super::slip::{Slip, Unspent};
use busbar::question::Question;
use busbar::ranged::Level;
use busbar::record::Record;
use feeder::tells::Feeder;
use stored::place::Place;

impl<F: Feeder> Sheet<F> {
    // A new sheet: level 100,000, and every position empty.
    pub fn new(job: u16, feeder: F) -> Sheet<F>
        ensures plain { plain_of result ≡ fresh job }
        ensures feeder { result.feeder ≡ feeder }
        ensures sound { Sound F.Feeder.meaning result }
    {
        Sheet {
            job,
            level: Level { value: 100_000 },
            feeder,
            table: [State::Empty; POSITIONS],
        }
    }

    // A record into an empty position, where it stands from now on.
    pub fn enter(&mut self, position: u32, bar: Record) -> Result<(), Question>
        ensures { Happened F.Feeder.meaning self.old (called_enter position bar) (answered done result) self.new }
    {
        self.change(position, Question::PositionNumber, Change::Enter(bar))
    }

    // A standing position empty again.
    pub fn strike(&mut self, position: u32) -> Result<(), Question>
        ensures { Happened F.Feeder.meaning self.old (called_strike position) (answered done result) self.new }
    {
        self.change(position, Question::PositionNumber, Change::Strike)
    }

    // A standing position open, and the slip for it.
    pub fn open(&mut self, position: u32) -> Result<Slip, Question>
        ensures happened { Happened F.Feeder.meaning self.old (called_open position) (slip_or_no result) self.new }
        ensures fits { IfOk result (λ s. Fits s (plain_of self.new)) }
        ensures unspent { IfOk result (λ s. s.spent ≡ false) }
    {
        self.change(position, Question::PositionNumber, Change::Open)?;
        Ok(Slip {
            job: self.job,
            position,
            spent: false,
        })
    }

    // A new record at the slip's open position. On a no the very same slip comes back.
    pub fn close(&mut self, slip: Slip, bar: Record) -> Result<(), Unspent>
        ensures happened { Happened F.Feeder.meaning self.old (called_close slip.job slip.position bar) (spent_or_no result) self.new }
        ensures slip { SlipBack slip result }
        ensures kept { OnErr result (Fits slip (plain_of self.old) → Fits slip (plain_of self.new)) }
    {
        self.spend(slip, Change::Close(bar))
    }

    // The kept record at the slip's open position. On a no the very same slip comes back.
    pub fn withdraw(&mut self, slip: Slip) -> Result<(), Unspent>
        ensures happened { Happened F.Feeder.meaning self.old (called_withdraw slip.job slip.position) (spent_or_no result) self.new }
        ensures slip { SlipBack slip result }
        ensures spends { Fits slip (plain_of self.old) → is_ok result ≡ true }
    {
        self.spend(slip, Change::Withdraw)
    }

    // Another level: every standing verdict is worked out again, under figures that are asked for once.
    pub fn set_level(&mut self, level: u32) -> Result<(), Question>
        ensures { Happened F.Feeder.meaning self.old (called_set_level level) (answered done result) self.new }
    {
        self.level = Level::new(level).ok_or(Question::Level)?;
        self.judge_again();
        Ok(())
    }

    // Every standing verdict, at the sheet's level.
    fn judge_again(&mut self)
        ensures { Rejudged F.Feeder.meaning self.old self.new }
    {
        let told = self.feeder.tell(self.level.value);
        // in its place: `map` would move the whole table several times over
        for state in self.table.iter_mut() {
            *state = state.judged_again(told);
        }
    }

    // The change that a slip stands for, which spends it. That the very same slip comes back relates what is given to what comes back,
    // which no type can hold, so each of the calls says it (`SlipBack`).
    fn spend(&mut self, mut slip: Slip, change: Change) -> Result<(), Unspent>
        ensures spent { ChangedBySlip F.Feeder.meaning self.old slip change result self.new }
        ensures slip { SlipBack slip result }
    {
        if slip.job != self.job {
            return Err(Unspent {
                slip,
                question: Question::SlipFits,
            });
        }
        if let Err(question) = self.change(slip.position, Question::SlipFits, change) {
            return Err(Unspent { slip, question });
        }
        slip.spent = true;
        Ok(())
    }

    // One position's state and the change decide; every other position stays as it is. A number outside 1 to 32 gets the question `outside`.
    fn change(&mut self, position: u32, outside: Question, change: Change) -> Result<(), Question>
        ensures { ChangedAt F.Feeder.meaning self.old outside position change result self.new }
    {
        let at = Place::new(position).ok_or(outside)?.offset();
        let told = self.feeder.tell(self.level.value);
        self.table[at] = self.table[at].changed(change, told)?;
        Ok(())
    }
}
