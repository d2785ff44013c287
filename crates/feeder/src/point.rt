// A point of a fuse's curve, and why one may not go onto it.
ghost use Rattle.std.specs.Prelude.{◌≡◌, Some};
ghost use Rattle.feeder.specs.Worded.{curve_error_text};
ghost use Rattle.feeder.specs.declared.point.CurveError.TheVariants.{Memory, Refused};

use busbar::question::Question;
use std::alloc::AllocFailed;
use std::error::Error;
use std::fmt;

// Up to the level, the fuse lets through this peak and this heat.
#[derive(Clone, Copy, Debug, PartialEq, Eq)]
pub struct Point {
    // A
    pub level: u32,
    // A
    pub peak: u32,
    // A²·ms
    pub heat: u64,
}

// Why a point did not go onto a curve.
#[derive(Clone, Copy, Debug, PartialEq, Eq)]
pub enum CurveError {
    // a ninth point, or one out of range or order
    Refused(Question),
    // no memory for it
    Memory,
}

impl From<Question> for CurveError {
    ghost from_gives = { λ q e. e ≡ Refused q };

    fn from(question: Question) -> CurveError {
        CurveError::Refused(question)
    }
}

impl<T: Drop> From<AllocFailed<T>> for CurveError {
    ghost from_gives = { λ _ e. e ≡ Memory };

    fn from(_failed: AllocFailed<T>) -> CurveError {
        CurveError::Memory
    }
}

impl fmt::Display for CurveError {
    ghost output = { λ e. Some (curve_error_text e) };

    fn fmt<W: fmt::Write>(&self, f: &mut fmt::Formatter<W>) -> fmt::Result {
        match self {
            Self::Refused(no) => write!(f, "question {no}"),
            Self::Memory => write!(f, "not enough memory"),
        }
    }
}

impl Error for CurveError {}
