// A fuse over any feeder.
ghost use Rattle.std.specs.Prelude.{◌≡◌};
ghost use Rattle.feeder.specs.Fuse.{fuse_tells};
ghost use Rattle.feeder.specs.Curves.{fuse_lawful};

use super::curve::Curve;
use super::tells::Feeder;

#[derive(Drop)]
pub struct Fuse<F> {
    below: F,
    curve: Curve,
}

impl<F: Feeder> Fuse<F> {
    // A fuse with this curve over the feeder.
    pub fn new(below: F, curve: Curve) -> Fuse<F>
        ensures { (result.below ≡ below) × (result.curve ≡ curve) }
    {
        Fuse { below, curve }
    }

    fn figures(&self, level: u32) -> Option<(u32, u64)>
        ensures { result ≡ fuse_tells self.now.curve.points.items level (F.Feeder.meaning self.now.below level) }
    {
        let point = self.curve.first_counting(level)?;
        let (peak, heat) = self.below.tell(level)?;
        Some((point.peak.min(peak), point.heat.min(heat)))
    }
}

impl<F: Feeder> Feeder for Fuse<F> {
    ghost meaning = { λ f n. fuse_tells f.curve.points.items n (F.Feeder.meaning f.below n) };

    ghost lawful = { λ f. fuse_lawful f.curve.points.items f.curve.order _ (F.Feeder.lawful f.below) };

    fn tell(&self, level: u32) -> Option<(u32, u64)> {
        self.figures(level)
    }
}
