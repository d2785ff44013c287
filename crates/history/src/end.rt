// Ending the work on two boards: every slip that is out is withdrawn.
ghost use Rattle.std.specs.Prelude.{◌≡◌};
ghost use Rattle.sheet.specs.Calls.Answer.{done};
ghost use Rattle.sheet.specs.Calls.Call.{withdraw as called_withdraw};
ghost use Rattle.sheet.specs.Happened.{Happened, plain_of};
ghost use Rattle.sheet.specs.Slips.{Fits};
ghost use Rattle.history.specs.Ending.{Withdrawn};

use super::boards::Both;
use super::call::Answer;
use feeder::tells::Feeder;
use sheet::sheet::Sheet;
use sheet::slip::Slip;

// Both sheets with no slip out, and all answers.
#[derive(Drop)]
pub struct Ended<F, G> {
    pub first: Sheet<F>,
    pub second: Sheet<G>,
    pub first_answers: Vec<Answer>,
    pub second_answers: Vec<Answer>,
}

impl<F: Feeder, G: Feeder> Both<F, G> {
    // Every open position stands again with the record that was kept for it.
    pub fn end(self) -> Ended<F, G>
        ensures first { Withdrawn F.Feeder.meaning self.first result.first }
        ensures second { Withdrawn G.Feeder.meaning self.second result.second }
        ensures first_answers { result.first_answers ≡ self.first_answers }
        ensures second_answers { result.second_answers ≡ self.second_answers }
    {
        let Both {
            mut first,
            mut second,
            first_answers,
            second_answers,
            mut slips,
        } = self;
        while let Some(slip) = slips.pop() {
            if slip.job() == first.job() {
                take_back(&mut first, slip);
            } else {
                take_back(&mut second, slip);
            }
        }
        slips.destroy_empty();
        Ended {
            first,
            second,
            first_answers,
            second_answers,
        }
    }
}

// A slip that fits is never refused.
fn take_back<F: Feeder>(sheet: &mut Sheet<F>, slip: Slip)
    requires { Fits slip (plain_of sheet.old) }
    ensures { Happened F.Feeder.meaning sheet.old (called_withdraw slip.job slip.position) done sheet.new }
{
    sheet.withdraw(slip).unwrap();
}
