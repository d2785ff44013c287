// Finding a slip among those in hand.
ghost use Rattle.history.specs.Hand.{Found, hand_of};

use sheet::slip::Slip;

// Where the first slip of this job and position lies.
pub(crate) fn find(slips: &[Slip], job: u16, position: u32) -> Option<usize>
    ensures { Found (hand_of slips.now) job position result }
{
    slips
        .iter()
        .position(|slip| slip.job() == job && slip.position() == position)
}
