// The bars of the board.
use busbar::question::Question;
use busbar::record::Record;
use busbar::section::Section;
use samples::held::bar_of;

// A bar of copper of this yield stress, N/mm².
fn of_yield(section: Section, yield_stress: u32) -> Record {
    Record {
        yield_stress,
        ..bar_of(section)
    }
}

// A bar on supports of this strength, N.
fn on_supports(section: Section, support_strength: u32) -> Record {
    Record {
        support_strength,
        ..bar_of(section)
    }
}

// A flat bar that bears another current density for one second, A/mm².
fn of_density(width: u32, thickness: u32, rated_density: u32) -> Result<Record, Question> {
    Ok(Record {
        yield_stress: 250,
        rated_density,
        ..bar_of(Section::bar(width, thickness)?)
    })
}

// The bars as they were tendered, each with its position.
pub(crate) fn tendered() -> Result<[(u32, Record); 9], Question> {
    Ok([
        // on the limit of its stress, and just past it
        (1, of_yield(Section::bar(60, 10)?, 48)),
        (2, of_yield(Section::bar(60, 10)?, 47)),
        // on the limit of its supports, and just past it
        (3, on_supports(Section::bar(60, 10)?, 2_315)),
        (4, on_supports(Section::bar(60, 10)?, 2_314)),
        // its single bars give way
        (5, of_yield(Section::stack(2, 60, 10, 500)?, 20)),
        (6, bar_of(Section::tube(50, 5)?)),
        (7, bar_of(Section::rod(40)?)),
        // on the limit of its heat, and just past it
        (8, of_density(18, 10, 93)?),
        (9, of_density(18, 10, 92)?),
    ])
}

// What the late edits put in the place of those that were refused.
#[derive(Clone, Copy)]
pub(crate) struct Mended {
    // for position 2: copper of a higher yield stress
    pub(crate) stronger: Record,
    // for position 4: supports of a higher strength
    pub(crate) supported: Record,
    // for position 5: a stack of a higher yield stress
    pub(crate) stack: Record,
    // for position 9: a thicker bar
    pub(crate) thicker: Record,
}

pub(crate) fn mended_bars() -> Result<Mended, Question> {
    Ok(Mended {
        stronger: of_yield(Section::bar(60, 10)?, 48),
        supported: on_supports(Section::bar(60, 10)?, 2_315),
        stack: of_yield(Section::stack(2, 60, 10, 500)?, 38),
        thicker: of_density(30, 10, 92)?,
    })
}
