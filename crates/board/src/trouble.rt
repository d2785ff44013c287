// What can end the work early.
use busbar::question::Question;
use std::io;
use thiserror::Error;

// A question that got a no, or output that failed.
#[derive(Debug, Drop, Error)]
pub(crate) enum Trouble {
    #[error("error {0}")]
    Asked(#[from] Question),
    #[error(transparent)]
    Output(#[from] io::Error),
}
