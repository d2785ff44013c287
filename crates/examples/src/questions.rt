// A record's questions: the ends of every range, each no by itself, and two at once.
use super::bars::{asked, bar_60_by_10};
use busbar::record::Record;
use busbar::section::{Section, SubBars};
use samples::held::bar_of;
use std::test::Fail;

// A field that has a question of its own.
#[derive(Clone, Copy)]
enum Field {
    Span,
    CentreDistance,
    DistanceFactor,
    YieldStress,
    RatedDensity,
    SupportStrength,
}

impl Field {
    // The record with this number in the field.
    fn put(self, mut bar: Record, value: u32) -> Record {
        match self {
            Field::Span => bar.span = value,
            Field::CentreDistance => bar.centre_distance = value,
            Field::DistanceFactor => bar.distance_factor = value,
            Field::YieldStress => bar.yield_stress = value,
            Field::RatedDensity => bar.rated_density = value,
            Field::SupportStrength => bar.support_strength = value,
        }
        bar
    }
}

// field, number of its question, least, most
const RANGES: [(Field, u32, u32, u32); 6] = [
    (Field::Span, 11, 50, 3_000),
    (Field::CentreDistance, 12, 20, 1_000),
    (Field::DistanceFactor, 13, 100, 1_500),
    (Field::YieldStress, 14, 20, 400),
    (Field::RatedDensity, 15, 50, 200),
    (Field::SupportStrength, 16, 100, 100_000),
];

#[test]
fn ends_of_the_ranges(rt: HostRuntime) {
    let bar = bar_60_by_10();
    for (field, question, least, most) in RANGES {
        for value in [least, most] {
            assert_eq!(rt; asked(field.put(bar, value)), Ok(()));
        }
        for value in [least.saturating_sub(1), most.saturating_add(1), u32::MAX] {
            assert_eq!(rt; asked(field.put(bar, value)), Err(question));
        }
    }
}

// A stack of two at the least figures, and its bars.
const LEAST: Section = Section {
    modulus: 10_000,
    area: 30_000,
    plastic_factor: 10_000,
    round: false,
    sub_bars: Some(LEAST_BARS),
};

const LEAST_BARS: SubBars = SubBars {
    count: 2,
    modulus: 10_000,
    distance: 13,
    spacing: 20,
};

// A bar of the stack with other bars in it.
fn of_bars(bars: SubBars) -> Record {
    bar_of(Section {
        sub_bars: Some(bars),
        ..LEAST
    })
}

#[test]
fn section_figures(rt: HostRuntime) {
    assert_eq!(rt; asked(bar_of(LEAST)), Ok(()));
    let most = Section {
        modulus: 1_000_000_000,
        area: 32_000_000,
        plastic_factor: 17_000,
        round: false,
        sub_bars: Some(SubBars {
            count: 3,
            modulus: 1_000_000_000,
            distance: 80,
            spacing: 1_000,
        }),
    };
    assert_eq!(rt; asked(bar_of(most)), Ok(()));
    for modulus in [9_999, 1_000_000_001] {
        assert_eq!(rt; asked(bar_of(Section { modulus, ..LEAST })), Err(10));
        assert_eq!(rt;
            asked(of_bars(SubBars {
                modulus,
                ..LEAST_BARS
            })),
            Err(10)
        );
    }
    for area in [29_999, 32_000_001] {
        assert_eq!(rt; asked(bar_of(Section { area, ..LEAST })), Err(10));
    }
    for plastic_factor in [9_999, 17_001] {
        assert_eq!(rt;
            asked(bar_of(Section {
                plastic_factor,
                ..LEAST
            })),
            Err(10)
        );
    }
    for count in [1, 4] {
        assert_eq!(rt;
            asked(of_bars(SubBars {
                count,
                ..LEAST_BARS
            })),
            Err(10)
        );
    }
    for distance in [12, 81] {
        assert_eq!(rt;
            asked(of_bars(SubBars {
                distance,
                ..LEAST_BARS
            })),
            Err(10)
        );
    }
    for spacing in [19, 3_001] {
        assert_eq!(rt;
            asked(of_bars(SubBars {
                spacing,
                ..LEAST_BARS
            })),
            Err(10)
        );
    }
    assert_eq!(rt; asked(of_bars(SubBars::default())), Err(10));
}

// A round section's k is 1,000; its other numbers stay inside the range and get a no all the same.
#[test]
fn round_sections(rt: HostRuntime) -> Result<(), Fail> {
    let mut bar = bar_of(Section::rod(50)?);
    assert_eq!(rt; asked(bar), Ok(()));
    for factor in [999, 1_001] {
        bar.distance_factor = factor;
        assert_eq!(rt; asked(bar), Err(13));
    }
    Ok(())
}

// A bar whose pieces are 400 mm apart.
fn with_pieces() -> Record {
    of_bars(SubBars {
        spacing: 400,
        ..LEAST_BARS
    })
}

// The pieces lie no further apart than the supports; without sub-bars nothing is asked.
#[test]
fn pieces_inside_the_span(rt: HostRuntime) {
    for (span, answer) in [(400, Ok(())), (399, Err(17))] {
        let bar = Record {
            span,
            ..with_pieces()
        };
        assert_eq!(rt; asked(bar), answer);
    }
}

// Of two noes the first counts, in the order of the questions.
#[test]
fn two_at_once(rt: HostRuntime) {
    for (one, question, _, _) in RANGES {
        for (other, second, _, _) in RANGES {
            let bar = other.put(one.put(bar_60_by_10(), 0), 0);
            assert_eq!(rt; asked(bar), Err(question.min(second)));
        }
    }
    let mut bar = with_pieces();
    bar.section.modulus = 9_999;
    bar.span = 0;
    assert_eq!(rt; asked(bar), Err(10));
    bar = with_pieces();
    bar.span = 399;
    bar.support_strength = 0;
    assert_eq!(rt; asked(bar), Err(16));
}
