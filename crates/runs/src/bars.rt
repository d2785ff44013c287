// The bars that the lists speak of, each by its name.
use busbar::record::Record;
use busbar::section::{Section, SubBars};
use samples::held::{BAR_60_BY_10, bar_of};

// Each in three spans and more, one metre each, 200 mm from its neighbours, without reclosing.
#[derive(Clone, Copy)]
pub(crate) enum Bar {
    // a flat bar 60 by 10
    Flat,
    // a flat bar 40 by 6, too light for a level of 16,000
    Light,
    // two bars 60 by 10, with pieces 500 mm apart
    Stack,
    // a tube of the diameter 50 with a wall of 5
    Tube,
    // the flat bar with spans of 1,200 mm: harder than it
    Long,
    // a bar of which the question of this number, 10 to 17, gets the first no: by its number, as the lists say the no
    Bad(u32),
}

const LIGHT: Section = Section {
    modulus: 240_000,
    area: 240_000,
    plastic_factor: 15_000,
    round: false,
    sub_bars: None,
};

const STACK: Section = Section {
    modulus: 2_000_000,
    area: 1_200_000,
    plastic_factor: 15_000,
    round: false,
    sub_bars: Some(SubBars {
        count: 2,
        modulus: 1_000_000,
        distance: 34,
        spacing: 500,
    }),
};

const TUBE: Section = Section {
    modulus: 7_245_291,
    area: 706_857,
    plastic_factor: 14_051,
    round: true,
    sub_bars: None,
};

impl Bar {
    pub(crate) fn record(self) -> Record {
        match self {
            Bar::Flat => bar_of(BAR_60_BY_10),
            Bar::Light => bar_of(LIGHT),
            Bar::Stack => bar_of(STACK),
            Bar::Tube => bar_of(TUBE),
            Bar::Long => Record {
                span: 1_200,
                ..bar_of(BAR_60_BY_10)
            },
            Bar::Bad(question) => bad(question),
        }
    }
}

// The stack with one number outside its limits; for 17 the supports are nearer than the pieces.
fn bad(question: u32) -> Record {
    let mut bar = bar_of(STACK);
    match question {
        10 => bar.section.modulus = 9_999,
        11 => bar.span = 3_001,
        12 => bar.centre_distance = 19,
        13 => bar.distance_factor = 1_501,
        14 => bar.yield_stress = 19,
        15 => bar.rated_density = 201,
        16 => bar.support_strength = 99,
        _ => bar.span = 499,
    }
    bar
}
