// How a bar is held on most boards.
ghost use Rattle.std.specs.Prelude.{◌≡◌};
ghost use Rattle.samples.specs.Held.{held};

use busbar::record::{FaultKind, Record, Scheme};
use busbar::section::Section;

// A flat bar 60 by 10, by its figures.
pub const BAR_60_BY_10: Section = Section {
    modulus: 1_000_000,
    area: 600_000,
    plastic_factor: 15_000,
    round: false,
    sub_bars: None,
};

// A bar of this section, three-phase, in three spans and more of one metre, 200 mm from its neighbours, without reclosing:
// copper of 120 N/mm² that bears 100 A/mm² for a second, on supports of 3,000 N.
pub fn bar_of(section: Section) -> Record
    ensures { result ≡ held section }
{
    Record {
        kind: FaultKind::ThreePhase,
        scheme: Scheme::MoreSpans,
        reclosing: false,
        span: 1_000,
        centre_distance: 200,
        distance_factor: 1_000,
        yield_stress: 120,
        rated_density: 100,
        support_strength: 3_000,
        section,
    }
}
