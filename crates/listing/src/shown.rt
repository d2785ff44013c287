// A verdict as it is printed.
ghost use Rattle.std.specs.Prelude.{Some};
ghost use Rattle.listing.specs.Text.{verdict_text};

use busbar::verdict::Verdict;
use std::fmt;

// "accepted", or "refused" with the number of the ground.
#[derive(Clone, Copy, Debug, PartialEq, Eq)]
pub struct Shown(pub Verdict);

impl fmt::Display for Shown {
    ghost output = { λ shown. Some (verdict_text shown.0) };

    fn fmt<W: fmt::Write>(&self, f: &mut fmt::Formatter<W>) -> fmt::Result {
        match self.0 {
            Ok(()) => write!(f, "accepted"),
            Err(refusal) => write!(f, "{refusal}"),
        }
    }
}
