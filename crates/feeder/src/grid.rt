// A grid: peak and heat from the prospective current itself.
ghost use Rattle.std.specs.Prelude.{◌≡◌, ◌≤◌, true, false, MatchResult};
ghost use Rattle.busbar.specs.declared.question.Question.TheVariants.{GridSize};
ghost use Rattle.feeder.specs.Grid.{grid_sizes, grid_tells};
ghost use Rattle.feeder.specs.Grids.{grid_lawful};

use super::tells::Feeder;
use busbar::question::Question;
use busbar::ranged::{Level, Ranged};

#[derive(Clone, Copy, Debug, PartialEq, Eq)]
pub struct Grid {
    // κ, thousandths
    kappa: Ranged<1_000, 2_000>,
    // m + n, thousandths
    heat_factor: Ranged<1, 3_000>,
    // T, ms
    duration: Ranged<20, 5_000>,
}

impl Grid {
    // A grid, unless κ lies outside 1,000 to 2,000, m + n outside 1 to 3,000 or T outside 20 to 5,000.
    pub fn new(kappa: u32, heat_factor: u32, duration: u32) -> Result<Grid, Question>
        ensures { MatchResult result (λ g. (g.kappa.value ≡ kappa) × (g.heat_factor.value ≡ heat_factor) × (g.duration.value ≡ duration) × (grid_sizes kappa heat_factor duration ≡ true)) (λ q. (q ≡ GridSize) × (grid_sizes kappa heat_factor duration ≡ false)) }
    {
        Ok(Grid {
            kappa: Ranged::new(kappa).ok_or(Question::GridSize)?,
            heat_factor: Ranged::new(heat_factor).ok_or(Question::GridSize)?,
            duration: Ranged::new(duration).ok_or(Question::GridSize)?,
        })
    }

    fn figures(&self, level: u32) -> Option<(u32, u64)>
        ensures { result ≡ grid_tells self.now.kappa.value self.now.heat_factor.value self.now.duration.value level }
    {
        let amps = Level::new(level)?.value as u64;
        let peak = amps * self.kappa.value as u64 * 1_414_214;
        let heat = amps * amps * self.heat_factor.value as u64 * self.duration.value as u64;
        Some((peak.div_ceil(1_000_000_000) as u32, heat.div_ceil(1_000)))
    }
}

impl Feeder for Grid {
    ghost meaning = { λ g. grid_tells g.kappa.value g.heat_factor.value g.duration.value };

    ghost lawful = { λ f.
        grid_lawful f.kappa.value f.heat_factor.value f.duration.value (record {
          kappa_in = record { least = f.kappa.least; most = f.kappa.most };
          factor_in = record { least = f.heat_factor.least; most = f.heat_factor.most };
          duration_in = record { least = f.duration.least; most = f.duration.most };
        }) };

    fn tell(&self, level: u32) -> Option<(u32, u64)> {
        self.figures(level)
    }
}
