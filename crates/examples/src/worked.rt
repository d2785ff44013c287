// The worked boards as a theorem about the definitions.
ghost use Rattle.examples.specs.Worked.{WorkedBoards};

// Says that every worked figure, verdict, feeder and block is what the definitions give: each is a computation.
#[tactic(auto, unfolding(busbar::specs::Rounding::up, busbar::specs::Verdict::figures_under, busbar::specs::Verdict::heat_limit, busbar::specs::Verdict::plastic_limit, busbar::specs::Verdict::verdict, stored::specs::Block::body_of, stored::specs::Block::check_of))]
pub fn worked_boards()
    ensures { WorkedBoards }
{}
