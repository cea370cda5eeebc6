// The numbers of a burst list, and the maker that checks them.
ghost use Rattle.std.specs.Prelude.{◌≡◌, ◌↔◌, IsTrue};
ghost use Rattle.bursts.specs.Made.{numbers_of, Made};
ghost use Rattle.bursts.specs.Ranges.{InRange};

use crate::limits::{BURST_GAP, BURST_TONES, BURSTS, TONE_GAP, TONE_LENGTH, WARNING_SECONDS};
use crate::list::BurstList;
use report::Refusal;

// The six numbers that a burst list is made of, in range or not: when a sound starts, in seconds before the
// period's end (`warning`); how many bursts it has, and tones each burst; the ticks from the end of a burst to the
// start of the next (`gap`), of a tone, and from a tone's end to the next tone's start (`pause`).
#[derive(Clone, Copy, PartialEq, Eq, Debug)]
pub struct BurstNumbers {
    pub warning: u16,
    pub bursts: u8,
    pub tones: u8,
    pub gap: u16,
    pub tone: u8,
    pub pause: u8,
}

impl BurstNumbers {
    fn are_in_range(&self) -> bool
        ensures { IsTrue result ↔ InRange self.now }
    {
        (1..=WARNING_SECONDS).contains(&self.warning)
            && (1..=BURSTS).contains(&self.bursts)
            && (1..=BURST_TONES).contains(&self.tones)
            && (1..=BURST_GAP).contains(&self.gap)
            && (1..=TONE_LENGTH).contains(&self.tone)
            && (1..=TONE_GAP).contains(&self.pause)
    }
}

impl TryFrom<BurstNumbers> for BurstList {
    type Error = Refusal;

    ghost try_from_gives = { Made };

    fn try_from(numbers: BurstNumbers) -> Result<BurstList, Refusal> {
        if !numbers.are_in_range() {
            return Err(Refusal::OutOfRange);
        }
        Ok(BurstList { numbers })
    }
}

impl From<BurstList> for BurstNumbers {
    ghost from_gives = { λ list result. result ≡ numbers_of list };

    fn from(list: BurstList) -> BurstNumbers {
        list.numbers
    }
}

impl BurstList {
    // `new` and `numbers` stay beside `TryFrom` and `From`: they are the public names that hosts call.

    // The list of these numbers, refused where one is out of its range.
    pub fn new(numbers: BurstNumbers) -> Result<BurstList, Refusal>
        ensures { Made numbers result }
    {
        BurstList::try_from(numbers)
    }

    // The numbers of the list.
    pub fn numbers(&self) -> BurstNumbers
        ensures { result ≡ numbers_of self.now }
    {
        self.numbers
    }
}
