// The slip: the token for one opened position. Only closing or withdrawing spends it, and one that is let go unspent is refused.
ghost use Rattle.std.specs.Prelude.{◌≡◌, true, false};

use busbar::question::Question;

pub struct Slip {
    pub(crate) job: u16,
    pub(crate) position: u32,
    // a rule of the project: a slip that is let go unspent has to be a fact that fails, so `drop` asks for this flag
    pub(crate) spent: bool,
}

impl Drop for Slip {
    fn drop(self)
        requires { self.spent ≡ true }
    {
        let Slip {
            job: _,
            position: _,
            spent: _,
        } = self;
    }
}

impl Slip {
    // The job of the sheet that gave it.
    pub fn job(&self) -> u16
        ensures { result ≡ self.now.job }
    {
        self.job
    }

    // The position that is open for it.
    pub fn position(&self) -> u32
        ensures { result ≡ self.now.position }
    {
        self.position
    }
}

// A slip that could not be spent, and the question that got the no. It has to be taken apart: letting it go loses the slip.
#[derive(Drop)]
pub struct Unspent {
    pub slip: Slip,
    pub question: Question,
}
