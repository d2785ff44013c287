// Whole numbers that carry their range.
ghost use Rattle.std.specs.Prelude.{◌≡◌, ◌+◌, ◌≤◌, true, false, MatchOption};
ghost use Rattle.busbar.specs.Rounding.{within};

// Whether x lies in low to high, both ends among them.
pub fn inside(x: u32, low: u32, high: u32) -> bool
    ensures { result ≡ within low high x }
{
    low <= x && x <= high
}

// A number from LOW to HIGH, both ends among them. Of 32 bits: of the numbers of 64 bits only heats and forces have a range,
// each of its own kind, and one type for both widths would need casts at every use.
#[derive(Clone, Copy, Debug, PartialEq, Eq)]
pub struct Ranged<const LOW: u32, const HIGH: u32> {
    pub value: u32,
    ghost least: { LOW ≤ value },
    ghost most: { value ≤ HIGH },
}

impl<const LOW: u32, const HIGH: u32> Ranged<LOW, HIGH> {
    // The number, unless it lies outside the range.
    pub fn new(value: u32) -> Option<Ranged<LOW, HIGH>>
        ensures { MatchOption result (within LOW HIGH value ≡ false) (λ x. (x.value ≡ value) × (within LOW HIGH value ≡ true)) }
    {
        if inside(value, LOW, HIGH) {
            Some(Ranged { value })
        } else {
            None
        }
    }

    // How far the number lies above the least one: the place of a number in a table over the range.
    pub fn offset(self) -> usize
        ensures place { result + LOW ≡ self.entry.value }
        ensures bound { result + LOW ≤ HIGH }
    {
        self.value as usize - LOW as usize
    }
}

// I, the peak of the fault current, A (i_p).
pub type Peak = Ranged<1, 300_000>;

// The prospective fault current that a board is judged at, A.
pub type Level = Ranged<100, 100_000>;
