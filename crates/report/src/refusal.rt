// How a call is refused: one case for each returned number.
ghost use Rattle.std.specs.Prelude.{◌≡◌};
ghost use Rattle.report.specs.Refusals.{returned};

// The rule of the frame that some bytes break first.
#[derive(Clone, Copy, PartialEq, Eq, Debug)]
pub enum Cause {
    Cut,
    Length,
    FrameKind,
    AddressKind,
    AddressNumber,
    ReportNumber,
    Flags,
    Party,
    Zero,
    Tick,
    Interval,
    Sum,
}

// A wrong frame: the rule that it breaks first, and the place of the first wrong byte.
#[derive(Clone, Copy, PartialEq, Eq, Debug)]
pub struct Fault {
    pub cause: Cause,
    pub place: usize,
}

// Why a call changed nothing.
#[derive(Clone, Copy, PartialEq, Eq, Debug)]
pub enum Refusal {
    // 1: the tick is past its limit or before the clock
    Untimely,
    // 2: a field is out of range, or a report is outside the frame's rules
    OutOfRange,
    // 3: an item is due at or before the tick
    ItemDue,
    // 4: no connection has the address
    NoConnection,
    // 5: the address has a connection already
    AddressConnected,
    // 6: the engine holds as many connections as it can
    ConnectionsFull,
    // 7: the connection's stage forbids the call, or no such report awaits confirmation
    WrongStage,
    // 8: a period is open, or an advice switch is unspent
    Pending,
    // 9: a burst list is longer than its warning
    BurstsTooLong,
    // 10: the connection had as many instructions, or tariff switches, as it may
    LimitReached,
    // 11: a report is to go and no place is free
    NoFreePlace,
    // 12: nothing is due
    NothingDue,
    // 13: no report waits
    NothingWaits,
    // 14: the place for a frame or for tones is too short
    PlaceTooShort,
    // 15: a frame is cut short or wrong
    WrongFrame(Fault),
    // 16: a report breaks the account rule
    AccountRule,
    // 17: as many accounts are open as can be
    AccountsFull,
}

impl Refusal {
    // The number that is returned for the refusal. A match, and no discriminants: a wrong frame carries its fault.
    pub fn number(self) -> u8
        ensures { result ≡ (returned self).number }
    {
        match self {
            Refusal::Untimely => 1,
            Refusal::OutOfRange => 2,
            Refusal::ItemDue => 3,
            Refusal::NoConnection => 4,
            Refusal::AddressConnected => 5,
            Refusal::ConnectionsFull => 6,
            Refusal::WrongStage => 7,
            Refusal::Pending => 8,
            Refusal::BurstsTooLong => 9,
            Refusal::LimitReached => 10,
            Refusal::NoFreePlace => 11,
            Refusal::NothingDue => 12,
            Refusal::NothingWaits => 13,
            Refusal::PlaceTooShort => 14,
            Refusal::WrongFrame(_) => 15,
            Refusal::AccountRule => 16,
            Refusal::AccountsFull => 17,
        }
    }

    // The place of the first wrong byte, which only a wrong frame has.
    pub fn place(self) -> Option<usize>
        ensures { result ≡ (returned self).place }
    {
        match self {
            Refusal::WrongFrame(fault) => Some(fault.place),
            _ => None,
        }
    }
}
