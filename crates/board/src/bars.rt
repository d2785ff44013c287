// The bars of the board.
use busbar::question::Question;
use busbar::record::Record;
use busbar::section::Section;
use samples::held::bar_of;

// Each bar with its position. The one at position 4 is too light.
pub(crate) fn small_board() -> Result<[(u32, Record); 4], Question> {
    Ok([
        (1, bar_of(Section::bar(60, 10)?)),
        (2, bar_of(Section::tube(50, 5)?)),
        (3, bar_of(Section::stack(2, 60, 10, 500)?)),
        (4, bar_of(Section::bar(40, 6)?)),
    ])
}

pub(crate) fn heavier_bar() -> Result<Record, Question> {
    Ok(bar_of(Section::bar(60, 10)?))
}
