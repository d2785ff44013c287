// A force that carries its range.
ghost use Rattle.std.specs.Prelude.{◌≤◌};

// A force on a bar, in 10 µN: at most what the largest peak can bring.
#[derive(Clone, Copy, Debug, PartialEq, Eq)]
pub struct Force {
    pub units: u64,
    ghost most: { units ≤ 405000000000 },
}
