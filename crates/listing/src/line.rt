// A line of the list.
ghost use Rattle.std.specs.Prelude.{◌≡◌, Some};
ghost use Rattle.listing.specs.Line.{line_of};
ghost use Rattle.listing.specs.Text.{line_text};

use super::shown::Shown;
use busbar::ranged::Peak;
use busbar::verdict::{Figures, Verdict};
use sheet::position::State;
use std::fmt;

// What the list says of a position that is not empty.
#[derive(Clone, Copy, Debug, PartialEq, Eq)]
pub enum Line {
    // the figures only where a peak was told
    Standing {
        position: u32,
        verdict: Verdict,
        figures: Option<Figures>,
    },
    Open {
        position: u32,
    },
}

impl Line {
    // The line of a position, under the figures that were told; none where it is empty.
    pub fn of(position: u32, state: &State, told: Option<(u32, u64)>) -> Option<Line>
        ensures { result ≡ line_of position told state.now }
    {
        match *state {
            State::Empty => None,
            State::Standing(bar, verdict) => {
                let peak = told.and_then(|(amps, _)| Peak::new(amps));
                let figures = peak.map(|peak| bar.figures(peak));
                Some(Line::Standing {
                    position,
                    verdict,
                    figures,
                })
            }
            State::Open(_) => Some(Line::Open { position }),
        }
    }
}

impl fmt::Display for Line {
    ghost output = { λ line. Some (line_text line) };

    // The number of the position, the verdict, the total stress in kPa and the support load in mN.
    fn fmt<W: fmt::Write>(&self, f: &mut fmt::Formatter<W>) -> fmt::Result {
        match *self {
            Line::Standing {
                position,
                verdict,
                figures: Some(figures),
            } => {
                let stress = figures.total_stress;
                let load = figures.support_load;
                write!(f, "{position} {} {stress} {load}", Shown(verdict))
            }
            Line::Standing {
                position,
                verdict,
                figures: None,
            } => write!(f, "{position} {} - -", Shown(verdict)),
            Line::Open { position } => write!(f, "{position} open"),
        }
    }
}
