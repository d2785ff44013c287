// The law over any two boards, for whoever calls the sheet: each function only carries a statement.
ghost use Rattle.history.specs.Law.{OneBoardLaw, TwoBoardsLaw};

use feeder::tells::Feeder;

// One board after any list of calls from a new sheet.
pub fn one_board<F: Feeder>()
    ensures { OneBoardLaw F.Feeder.meaning }
{}

// Two boards under any two feeders, each after any list of calls from a new sheet.
pub fn two_boards<F: Feeder, G: Feeder>()
    ensures { TwoBoardsLaw F.Feeder.meaning G.Feeder.meaning }
{}
