// Rounding against the bar: the library's division under the name and in the words of the rules.
ghost use Rattle.std.specs.Prelude.{◌≡◌, ◌<◌};
ghost use Rattle.busbar.specs.Rounding.{up};

// The quotient, up to the next whole number unless it is whole.
#[tactic(auto, unfolding(crate::specs::Rounding::up))]
pub(crate) fn rounded_up(n: u64, by: u64) -> u64
    requires { 0 < by }
    ensures { result ≡ up n by }
{
    n.div_ceil(by)
}
