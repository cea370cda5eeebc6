// The report of a frame, and the bytes after it.
ghost use Rattle.std.specs.Prelude.{◌≡◌, length, MatchResult};
ghost use Rattle.report.specs.declared.refusal.Cause.TheVariants.{Cut};
ghost use Rattle.report.specs.declared.refusal.Refusal.TheVariants.{WrongFrame};
ghost use Rattle.frame.specs.Frame.{FrameRead, FrameRefused};

use crate::flags::{elapsed_of, flags_right, interval_right, standing_of};
use crate::layout::{LENGTH, REPORT_KIND};
use report::limits::{ADDRESS_KINDS, ADDRESS_NUMBERS, LAST_TICK, PARTIES, REPORT_NUMBERS};
use report::{Address, Cause, Fault, Refusal, Report};

// The refusal of bytes that break a rule of the frame first, at a place.
fn wrong(cause: Cause, place: usize) -> Refusal
    ensures { result ≡ WrongFrame (record { cause = cause; place = place }) }
{
    Refusal::WrongFrame(Fault { cause, place })
}

// The refusal of bytes that end before a frame does, at their end.
fn cut(bytes: &[u8]) -> Refusal
    ensures { result ≡ WrongFrame (record { cause = Cut; place = length bytes.now }) }
{
    wrong(Cause::Cut, bytes.len())
}

// Reads the frame at the front of some bytes. The rules are checked in the order of the bytes; too few bytes for a frame come first of all.
// A `let .. else` for each field check is a rule of the project.
pub fn read(bytes: &[u8]) -> Result<(Report, &[u8]), Refusal>
    ensures { MatchResult result (λ o. FrameRead bytes.now o.0 o.1.now) (λ e. FrameRefused bytes.now e) }
{
    let [length_low, length_high, kind_low, kind_high, rest @ ..] = bytes else {
        return Err(cut(bytes));
    };
    let [
        kind,
        address,
        n0,
        n1,
        flags,
        party,
        z0,
        z1,
        t0,
        t1,
        t2,
        t3,
        u0,
        u1,
        u2,
        u3,
        i0,
        i1,
        i2,
        i3,
        after @ ..,
    ] = rest
    else {
        return Err(cut(bytes));
    };
    let LENGTH = u16::from_le_bytes([*length_low, *length_high]) else {
        return Err(wrong(Cause::Length, 0));
    };
    let REPORT_KIND = u16::from_le_bytes([*kind_low, *kind_high]) else {
        return Err(wrong(Cause::FrameKind, 2));
    };
    let kind @ 1..=ADDRESS_KINDS = *kind else {
        return Err(wrong(Cause::AddressKind, 4));
    };
    let address @ 1..=ADDRESS_NUMBERS = *address else {
        return Err(wrong(Cause::AddressNumber, 5));
    };
    let number @ 1..=REPORT_NUMBERS = u16::from_le_bytes([*n0, *n1]) else {
        return Err(wrong(Cause::ReportNumber, 6));
    };
    let true = flags_right(*flags) else {
        return Err(wrong(Cause::Flags, 8));
    };
    let party @ 1..=PARTIES = *party else {
        return Err(wrong(Cause::Party, 9));
    };
    let 0 = u16::from_le_bytes([*z0, *z1]) else {
        return Err(wrong(Cause::Zero, 10));
    };
    let tick @ 0..=LAST_TICK = u32::from_le_bytes([*t0, *t1, *t2, *t3]) else {
        return Err(wrong(Cause::Tick, 12));
    };
    let time = u32::from_le_bytes([*u0, *u1, *u2, *u3]);
    let interval = u32::from_le_bytes([*i0, *i1, *i2, *i3]);
    let true = interval_right(*flags, interval) else {
        return Err(wrong(Cause::Interval, 20));
    };
    let true = (time <= tick && interval <= tick - time) else {
        return Err(wrong(Cause::Sum, 20));
    };
    let report = Report {
        address: Address {
            kind,
            number: address,
        },
        number,
        party,
        tick,
        standing: standing_of(*flags),
        elapsed: elapsed_of(*flags, time, interval),
    };
    Ok((report, after))
}
