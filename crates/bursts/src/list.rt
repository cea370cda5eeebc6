// A burst list, whose ranges are part of its type.
ghost use Rattle.bursts.specs.Ranges.{InRange};

use crate::make::BurstNumbers;

// No list breaks its ranges, so what reads one asks nothing.
#[derive(Clone, Copy, PartialEq, Eq, Debug)]
pub struct BurstList {
    pub(super) numbers: BurstNumbers,
    ghost in_range: { InRange numbers },
}
