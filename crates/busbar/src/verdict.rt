// The verdict on one bar: accepted, or refused on the first ground that fails.
ghost use Rattle.std.specs.Prelude.{◌≡◌, Some};
ghost use Rattle.std.specs.Fmt.{decimal};
ghost use Rattle.busbar.specs.Exact.{Exact};
ghost use Rattle.busbar.specs.Harder.{NoSofterThanEasier};
ghost use Rattle.busbar.specs.Verdict.{ground_number, heat_limit, passed_on, plastic_limit, figures_under, refusal_text, verdict, verdict_under};

use super::checked::CheckedRecord;
use super::ranged::Peak;
use std::error::Error;
use std::fmt;

// What a bar has to pass, in this order and under these numbers.
#[derive(Clone, Copy, Debug, PartialEq, Eq)]
pub enum Ground {
    // the feeder gave figures
    Figures = 1,
    // the heat is within what the bar bears
    Heat = 2,
    // the sub-bar stress is within the yield stress
    SubBarStress = 3,
    // main and sub-bar stress together are within the plastic limit
    TotalStress = 4,
    // the load on the support is within its strength
    SupportLoad = 5,
}

impl Ground {
    pub fn number(self) -> u32
        ensures { result ≡ ground_number self }
    {
        self as u32
    }

    // Passed where the figure is within the limit.
    fn pass(self, figure: u64, limit: u64) -> Verdict
        ensures { result ≡ passed_on self figure limit }
    {
        if figure <= limit {
            Ok(())
        } else {
            Err(Refusal {
                ground: self,
                figure,
                limit,
            })
        }
    }
}

// Numbered and printed as a question is: a trait for two methods of one line each would be no plainer.
impl fmt::Display for Ground {
    ghost output = { λ g. Some (decimal (ground_number g)) };

    fn fmt<W: fmt::Write>(&self, f: &mut fmt::Formatter<W>) -> fmt::Result {
        write!(f, "{}", self.number())
    }
}

// The ground that failed, with the figure and the limit that it passed.
// By the rules each refusal has both numbers, and on ground 1, which has none, both are 0.
#[derive(Clone, Copy, Debug, PartialEq, Eq)]
pub struct Refusal {
    pub ground: Ground,
    pub figure: u64,
    pub limit: u64,
}

impl fmt::Display for Refusal {
    ghost output = { λ r. Some (refusal_text r) };

    fn fmt<W: fmt::Write>(&self, f: &mut fmt::Formatter<W>) -> fmt::Result {
        write!(f, "refused {}", self.ground)
    }
}

impl Error for Refusal {}

// Ok is accepted.
pub type Verdict = Result<(), Refusal>;

// What a peak does to a bar: stresses in kPa, the load on the worse support in mN.
#[derive(Clone, Copy, Debug, PartialEq, Eq)]
pub struct Figures {
    pub main_stress: u64,
    pub sub_stress: u64,
    pub total_stress: u64,
    pub support_load: u64,
}

impl CheckedRecord {
    // All that a peak does to the bar, with each figure worked out once.
    #[tactic(auto, unfolding(crate::specs::Verdict::figures_under))]
    pub fn figures(&self, peak: Peak) -> Figures
        ensures { result ≡ figures_under self.now.bar peak.value }
    {
        let force = self.span_force(peak);
        let main_stress = self.main_stress(force);
        let sub_stress = self.sub_stress(self.sub_force(peak));
        Figures {
            main_stress,
            sub_stress,
            total_stress: main_stress + sub_stress,
            support_load: self.support_load(force),
        }
    }

    // The heat that the bar bears, A²·ms.
    #[tactic(auto, unfolding(crate::specs::Verdict::heat_limit))]
    pub fn heat_limit(&self) -> u64
        ensures { result ≡ heat_limit self.now.bar }
    {
        let current = self.rated_current();
        10 * current * current
    }

    // The stress at which the bar has yielded over its whole section, kPa.
    #[tactic(auto, unfolding(crate::specs::Verdict::plastic_limit))]
    pub fn plastic_limit(&self) -> u64
        ensures { result ≡ plastic_limit self.now.bar }
    {
        self.bar.section.plastic_factor as u64 * self.bar.yield_stress as u64 / 10
    }
}

// The verdict on a bar under the peak and heat that were told. A pair outside a feeder's ranges counts as nothing.
pub fn judge(bar: &CheckedRecord, told: Option<(u32, u64)>) -> Verdict
    ensures value { result ≡ verdict bar.now.bar told }
    ensures exact { Exact bar.now.bar told result }
    ensures harder { NoSofterThanEasier bar.now.bar told result }
{
    judged(bar, told)
}

// No figures were told.
const NO_FIGURES: Refusal = Refusal {
    ground: Ground::Figures,
    figure: 0,
    limit: 0,
};

#[tactic(auto, unfolding(crate::specs::Verdict::verdict))]
fn judged(bar: &CheckedRecord, told: Option<(u32, u64)>) -> Verdict
    ensures { result ≡ verdict bar.now.bar told }
{
    let (amps, heat) = told.ok_or(NO_FIGURES)?;
    let peak = Peak::new(amps).ok_or(NO_FIGURES)?;
    if heat < 1 || heat > 200_000_000_000_000 {
        return Err(NO_FIGURES);
    }
    first_failing(bar, peak, heat)
}

// The grounds with a figure, in their order.
fn first_failing(bar: &CheckedRecord, peak: Peak, heat: u64) -> Verdict
    ensures { result ≡ verdict_under bar.now.bar peak.value heat }
{
    Ground::Heat.pass(heat, bar.heat_limit())?;
    let figures = bar.figures(peak);
    let yield_limit = 1_000 * bar.bar.yield_stress as u64;
    Ground::SubBarStress.pass(figures.sub_stress, yield_limit)?;
    Ground::TotalStress.pass(figures.total_stress, bar.plastic_limit())?;
    let strength = 1_000 * bar.bar.support_strength as u64;
    Ground::SupportLoad.pass(figures.support_load, strength)
}
