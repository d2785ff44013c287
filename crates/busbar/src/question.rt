// Everything that can get a no, each under its number. A call answers the first of its questions that got one.
ghost use Rattle.std.specs.Prelude.{◌≡◌, Some};
ghost use Rattle.std.specs.Fmt.{decimal};
ghost use Rattle.busbar.specs.Question.{asked, number_of};

use std::error::Error;
use std::fmt;

#[derive(Clone, Copy, Debug, PartialEq, Eq)]
pub enum Question {
    // the record's, in their order
    SectionFigures = 10,
    Span = 11,
    CentreDistance = 12,
    DistanceFactor = 13,
    YieldStress = 14,
    RatedDensity = 15,
    SupportStrength = 16,
    PieceSpacing = 17,
    // the sheet's calls
    PositionNumber = 18,
    PositionEmpty = 19,
    PositionStanding = 20,
    Level = 21,
    SlipFits = 22,
    NothingOpen = 23,
    BufferRoom = 24,
    // a stored sheet
    StoredLength = 30,
    BlockCheck = 31,
    BlockLayout = 32,
    SameJob = 33,
    // what is made of sizes
    GridSize = 40,
    MotorsSize = 41,
    CurvePoint = 42,
    SectionSize = 43,
    StackSize = 44,
}

impl Question {
    // The number that a person is told.
    pub fn number(self) -> u32
        ensures { result ≡ number_of self }
    {
        self as u32
    }

    // A yes lets the next question be asked; a no is the answer.
    pub fn ask(self, yes: bool) -> Result<(), Question>
        ensures { result ≡ asked self yes }
    {
        if yes { Ok(()) } else { Err(self) }
    }
}

impl fmt::Display for Question {
    ghost output = { λ q. Some (decimal (number_of q)) };

    fn fmt<W: fmt::Write>(&self, f: &mut fmt::Formatter<W>) -> fmt::Result {
        write!(f, "{}", self.number())
    }
}

impl Error for Question {}
