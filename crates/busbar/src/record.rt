// The record: one bar as it is entered.
ghost use Rattle.std.specs.Prelude.{◌≡◌, false, MatchResult, Some, if◌then◌else◌};
ghost use Rattle.busbar.specs.Factors.{scheme_number};
ghost use Rattle.busbar.specs.Rounding.{within};
ghost use Rattle.busbar.specs.Worded.{unknown_scheme_text};
ghost use Rattle.busbar.specs.declared.record.FaultKind.TheVariants.{ThreePhase, TwoLine};

use super::section::Section;
use std::error::Error;
use std::fmt;

#[derive(Clone, Copy, Debug, PartialEq, Eq)]
pub enum FaultKind {
    ThreePhase = 0,
    TwoLine = 1,
}

// How the bar is held, by the number that it is stored under.
#[derive(Clone, Copy, Debug, PartialEq, Eq)]
pub enum Scheme {
    // one span, both ends simple
    BothSimple = 1,
    // one span, one end fixed and one simple
    FixedAndSimple = 2,
    // one span, both ends fixed
    BothFixed = 3,
    TwoSpans = 4,
    // three spans and more
    MoreSpans = 5,
}

// A number that stands for no scheme.
#[derive(Clone, Copy, Debug, PartialEq, Eq)]
pub struct UnknownScheme(pub u32);

// The kind by the flag that it is stored as.
impl From<bool> for FaultKind {
    ghost from_gives = { λ two_line kind. kind ≡ (if two_line then TwoLine else ThreePhase) };

    fn from(two_line: bool) -> FaultKind {
        if two_line {
            FaultKind::TwoLine
        } else {
            FaultKind::ThreePhase
        }
    }
}

impl TryFrom<u32> for Scheme {
    type Error = UnknownScheme;

    ghost try_from_gives = { λ n outcome. MatchResult outcome (λ scheme. scheme_number scheme ≡ n) (λ e. (e.0 ≡ n) × (within 1 5 n ≡ false)) };

    fn try_from(number: u32) -> Result<Scheme, UnknownScheme> {
        match number {
            1 => Ok(Scheme::BothSimple),
            2 => Ok(Scheme::FixedAndSimple),
            3 => Ok(Scheme::BothFixed),
            4 => Ok(Scheme::TwoSpans),
            5 => Ok(Scheme::MoreSpans),
            _ => Err(UnknownScheme(number)),
        }
    }
}

impl fmt::Display for UnknownScheme {
    ghost output = { λ e. Some (unknown_scheme_text e) };

    fn fmt<W: fmt::Write>(&self, f: &mut fmt::Formatter<W>) -> fmt::Result {
        write!(f, "no scheme has the number {}", self.0)
    }
}

impl Error for UnknownScheme {}

#[derive(Clone, Copy, Debug, PartialEq, Eq)]
pub struct Record {
    pub kind: FaultKind,
    pub scheme: Scheme,
    // whether the breaker closes again onto the fault
    pub reclosing: bool,
    // l, between two supports, mm (l)
    pub span: u32,
    // a, between the centres of neighbouring main bars, mm (a)
    pub centre_distance: u32,
    // k, thousandths (k_12 of Figure 1; 1,000 for a round section)
    pub distance_factor: u32,
    // f, N/mm² (f_y)
    pub yield_stress: u32,
    // S, the current density that the bar bears for one second, A/mm² (S_thr)
    pub rated_density: u32,
    // P, what the support holds at its head, N
    pub support_strength: u32,
    pub section: Section,
}
