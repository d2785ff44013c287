// The house values that scheme, fault kind and reclosing stand for.
ghost use Rattle.std.specs.Prelude.{◌≡◌};
ghost use Rattle.busbar.specs.Factors.{support_share, bending_share, phase_factor, load_factor, stress_factor};

use super::record::{FaultKind, Scheme};

impl Scheme {
    // α of the worse support, thousandths.
    pub fn support_share(self) -> u64
        ensures { result ≡ support_share self }
    {
        match self {
            Scheme::BothSimple => 500,
            Scheme::FixedAndSimple => 625,
            Scheme::BothFixed => 500,
            Scheme::TwoSpans => 1_250,
            Scheme::MoreSpans => 1_100,
        }
    }

    // β, hundredths.
    pub fn bending_share(self) -> u64
        ensures { result ≡ bending_share self }
    {
        match self {
            Scheme::BothSimple => 100,
            Scheme::FixedAndSimple => 73,
            Scheme::BothFixed => 50,
            Scheme::TwoSpans => 73,
            Scheme::MoreSpans => 73,
        }
    }
}

impl FaultKind {
    // c, millionths: √3/2 rounded up where three phases share the fault.
    pub fn phase_factor(self) -> u64
        ensures { result ≡ phase_factor self }
    {
        match self {
            FaultKind::ThreePhase => 866_026,
            FaultKind::TwoLine => 1_000_000,
        }
    }

    // V, thousandths: how much more than the force a support feels (V_F V_rm).
    pub fn load_factor(self) -> u64
        ensures { result ≡ load_factor self }
    {
        match self {
            FaultKind::ThreePhase => 2_700,
            FaultKind::TwoLine => 2_000,
        }
    }
}

// v, tenths: how much more than the still stress a bar feels (V_σm V_rm and V_σs V_rs).
pub fn stress_factor(reclosing: bool) -> u64
    ensures { result ≡ stress_factor reclosing }
{
    if reclosing { 18 } else { 10 }
}
