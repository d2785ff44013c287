// Motors over any feeder.
ghost use Rattle.std.specs.Prelude.{◌≡◌, ◌≤◌, true, false, MatchResult};
ghost use Rattle.busbar.specs.declared.question.Question.TheVariants.{MotorsSize};
ghost use Rattle.feeder.specs.Motors.{motors_sizes, motors_tell};
ghost use Rattle.feeder.specs.Sums.{motors_lawful};

use super::tells::Feeder;
use busbar::question::Question;
use busbar::ranged::Ranged;

#[derive(Drop)]
pub struct Motors<F> {
    below: F,
    // what the motors bring themselves: A, and A²·ms
    peak: Ranged<0, 50_000>,
    heat: u64,
    ghost heat_most: { heat ≤ 50000000000000 },
}

impl<F: Feeder> Motors<F> {
    // Motors over a feeder, unless their peak is above 50,000 or their heat above 50,000,000,000,000.
    pub fn new(below: F, peak: u32, heat: u64) -> Result<Motors<F>, Question>
    where
        F: Drop,
        ensures { MatchResult result (λ m. (m.below ≡ below) × (m.peak.value ≡ peak) × (m.heat ≡ heat) × (motors_sizes peak heat ≡ true)) (λ q. (q ≡ MotorsSize) × (motors_sizes peak heat ≡ false)) }
    {
        let peak = Ranged::new(peak).ok_or(Question::MotorsSize)?;
        Question::MotorsSize.ask(heat <= 50_000_000_000_000)?;
        Ok(Motors { below, peak, heat })
    }

    fn figures(&self, level: u32) -> Option<(u32, u64)>
        ensures { result ≡ motors_tell self.now.peak.value self.now.heat (F.Feeder.meaning self.now.below level) }
    {
        let (peak, heat) = self.below.tell(level)?;
        let peak = peak + self.peak.value;
        let heat = heat + self.heat;
        (peak <= 300_000 && heat <= 200_000_000_000_000).then_some((peak, heat))
    }
}

impl<F: Feeder> Feeder for Motors<F> {
    ghost meaning = { λ m n. motors_tell m.peak.value m.heat (F.Feeder.meaning m.below n) };

    ghost lawful = { λ f. motors_lawful f.peak.value f.heat _ (F.Feeder.lawful f.below) };

    fn tell(&self, level: u32) -> Option<(u32, u64)> {
        self.figures(level)
    }
}
