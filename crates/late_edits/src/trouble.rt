// What can end the work early. The program `board` has a type of its own: it knows no hindrance, and a shared one would bring lists of calls into it.
use busbar::question::Question;
use feeder::point::CurveError;
use history::both::Hindrance;
use std::alloc::{AllocError, AllocFailed};
use std::io;
use thiserror::Error;

// A question that got a no, two boards of one job or want of memory, or output that failed.
#[derive(Debug, Drop, Error)]
pub(crate) enum Trouble {
    #[error("error {0}")]
    Asked(#[from] Question),
    #[error(transparent)]
    Hindered(#[from] Hindrance),
    #[error(transparent)]
    Output(#[from] io::Error),
}

// by hand, since these become cases that are there already
impl From<CurveError> for Trouble {
    fn from(error: CurveError) -> Trouble {
        match error {
            CurveError::Refused(question) => Trouble::Asked(question),
            CurveError::Memory => Trouble::Hindered(Hindrance::Memory),
        }
    }
}

impl From<AllocError> for Trouble {
    fn from(_error: AllocError) -> Trouble {
        Trouble::Hindered(Hindrance::Memory)
    }
}

impl<T: Drop> From<AllocFailed<T>> for Trouble {
    fn from(_refused: AllocFailed<T>) -> Trouble {
        Trouble::Hindered(Hindrance::Memory)
    }
}
