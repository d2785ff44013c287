// The law for whoever calls the sheet directly, without a list: one bar entered on the new sheets of two boards.
ghost use Rattle.std.specs.Prelude.{◌≡◌, [], ◌∷◌};
ghost use Rattle.sheet.specs.Calls.Call.{enter as called_enter};
ghost use Rattle.sheet.specs.Happened.{plain_of};
ghost use Rattle.sheet.specs.Plain.{fresh};
ghost use Rattle.history.specs.Course.{plain_after};
ghost use Rattle.history.specs.Law.{TwoBoards};

use busbar::record::Record;
use feeder::tells::Feeder;
use history::law::{one_board, two_boards};
use sheet::sheet::Sheet;

pub fn entered_on_both<F: Feeder, G: Feeder>(
    first: F,
    second: G,
    bar: Record,
) -> (Sheet<F>, Sheet<G>)
    ensures first { plain_of result.0 ≡ plain_after (F.Feeder.meaning first) (fresh 1) (called_enter 7 bar ∷ []) }
    ensures second { plain_of result.1 ≡ plain_after (G.Feeder.meaning second) (fresh 2) (called_enter 7 bar ∷ []) }
    ensures law { TwoBoards F.Feeder.meaning first G.Feeder.meaning second result.0 result.1 }
{
    let mut one = Sheet::new(1, first);
    let mut two = Sheet::new(2, second);
    let _ = one.enter(7, bar);
    let _ = two.enter(7, bar);
    one_board::<F>();
    one_board::<G>();
    two_boards::<F, G>();
    (one, two)
}
