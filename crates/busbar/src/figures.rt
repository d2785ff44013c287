// The figures of one bar under a peak: forces, stresses, support load, and the current that its heat limit stands for.
ghost use Rattle.std.specs.Prelude.{◌≡◌};
ghost use Rattle.busbar.specs.Figures.{current_force, span_force, sub_force, main_stress_of, sub_stress_of, support_load_of, rated_current};

use super::checked::CheckedRecord;
use super::factors::stress_factor;
use super::force::Force;
use super::ranged::Peak;
use super::rounding::rounded_up;

impl CheckedRecord {
    // U, the force of the currents where span and distance are equal, 0.1 µN.
    pub fn current_force(&self, peak: Peak) -> u64
        ensures { result ≡ current_force self.now.bar.kind peak.value }
    {
        let amps = peak.value as u64;
        rounded_up(amps * amps * self.bar.kind.phase_factor(), 500_000)
    }

    // F, the force on the span (F_m3 or F_m2).
    pub fn span_force(&self, peak: Peak) -> Force
        ensures { result.units ≡ span_force self.now.bar peak.value }
    {
        let along = self.current_force(peak)
            * self.bar.span as u64
            * self.bar.distance_factor as u64;
        Force {
            units: rounded_up(along, 100_000 * self.bar.centre_distance as u64),
        }
    }

    // G, the force on a sub-bar between two connecting pieces (F_s); by the rules 0 without sub-bars, so that every bar has every figure.
    pub fn sub_force(&self, peak: Peak) -> Force
        ensures { result.units ≡ sub_force self.now.bar peak.value }
    {
        match self.bar.section.sub_bars {
            None => Force { units: 0 },
            Some(bars) => {
                let amps = peak.value as u64;
                let count = bars.count as u64;
                let shared = amps * amps * bars.spacing as u64;
                Force {
                    units: rounded_up(shared, 50 * count * count * bars.distance as u64),
                }
            }
        }
    }

    // The main bending stress (σ_m,d), kPa.
    pub fn main_stress(&self, force: Force) -> u64
        ensures { result ≡ main_stress_of self.now.bar force.units }
    {
        let share = stress_factor(self.bar.reclosing) * self.bar.scheme.bending_share();
        rounded_up(
            share * force.units * self.bar.span as u64,
            800 * self.bar.section.modulus as u64,
        )
    }

    // The bending stress of a sub-bar (σ_s,d), kPa; by the rules 0 without sub-bars.
    pub fn sub_stress(&self, force: Force) -> u64
        ensures { result ≡ sub_stress_of self.now.bar force.units }
    {
        match self.bar.section.sub_bars {
            None => 0,
            Some(bars) => {
                let bent = stress_factor(self.bar.reclosing) * force.units * bars.spacing as u64;
                rounded_up(bent, 16 * bars.modulus as u64)
            }
        }
    }

    // R, the load on the worse support (F_r,d), mN.
    pub fn support_load(&self, force: Force) -> u64
        ensures { result ≡ support_load_of self.now.bar force.units }
    {
        let shared = force.units * self.bar.scheme.support_share();
        rounded_up(shared * self.bar.kind.load_factor(), 100_000_000)
    }

    // M, the current that the bar bears for one second, 0.1 A.
    pub fn rated_current(&self) -> u64
        ensures { result ≡ rated_current self.now.bar }
    {
        self.bar.rated_density as u64 * self.bar.section.area as u64 / 100
    }
}
