// What every feeder is: it is given a level, the prospective fault current in A, and tells peak and heat, or nothing.
// Peak and heat are a pair everywhere: one parameter, taken apart by `let (peak, heat)` where it is used, so that a struct would be no plainer.
ghost use Rattle.std.specs.Prelude.{◌≡◌, ℕ, Option};
ghost use Rattle.feeder.specs.Laws.{Lawful};

pub trait Feeder {
    // The feeder as a function of the level: peak (A) and heat (A²·ms), or nothing.
    ghost meaning: { Self → ℕ → Option (ℕ × ℕ) };

    fn tell(&self, level: u32) -> Option<(u32, u64)>
        ensures { result ≡ meaning self.now level };

    // What that function obeys, whatever the make.
    ghost lawful: { (f : Self) → Lawful (meaning f) };
}
