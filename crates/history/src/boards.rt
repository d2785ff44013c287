// Two boards and what they come back as.
ghost use Rattle.std.specs.Prelude.{◌≡◌, ℕ, ◌+◌, false, ◌==◌};
ghost use Rattle.sheet.specs.Happened.{plain_of};
ghost use Rattle.history.specs.Hand.{hand_of, open_for, times};

use super::call::Answer;
use sheet::sheet::Sheet;
use sheet::slip::Slip;

// Both sheets after their lists, all answers, and the slips that are still out. The fields of the two boards stand side by side,
// as the law names them.
pub struct Both<F, G> {
    pub first: Sheet<F>,
    pub second: Sheet<G>,
    pub first_answers: Vec<Answer>,
    pub second_answers: Vec<Answer>,
    pub slips: Vec<Slip>,
    // the slips can be told apart, and are exactly the open positions of the two sheets
    ghost apart: { (first.job == second.job) ≡ false },
    ghost out: { (job n : ℕ) → times (hand_of slips.items) job n ≡ open_for (plain_of first) job n + open_for (plain_of second) job n },
}
