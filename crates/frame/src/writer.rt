// A report's frame, written at the front of a place.
ghost use Rattle.std.specs.Prelude.{◌≡◌, MatchResult};
ghost use Rattle.frame.specs.Frame.{frame, FrameWritten, FrameUnwritten};

use crate::flags::{elapsed_bits, standing_bits};
use crate::layout::{FRAME, LENGTH, REPORT_KIND};
use report::{Refusal, Report};

// The 24 bytes of the report's frame. No `From`: of a report that is not lawful, which `write` refuses, they would not read back.
fn to_frame(report: Report) -> [u8; FRAME]
    ensures { result ≡ frame report }
{
    let [l0, l1] = LENGTH.to_le_bytes();
    let [k0, k1] = REPORT_KIND.to_le_bytes();
    let [n0, n1] = report.number.to_le_bytes();
    let [t0, t1, t2, t3] = report.tick.to_le_bytes();
    let [u0, u1, u2, u3] = report.elapsed.time().to_le_bytes();
    let [i0, i1, i2, i3] = report.elapsed.interval().to_le_bytes();
    let flags = standing_bits(report.standing) + elapsed_bits(report.elapsed);
    [
        l0,
        l1,
        k0,
        k1,
        report.address.kind,
        report.address.number,
        n0,
        n1,
        flags,
        report.party,
        0,
        0,
        t0,
        t1,
        t2,
        t3,
        u0,
        u1,
        u2,
        u3,
        i0,
        i1,
        i2,
        i3,
    ]
}

// Writes the report's frame at the front of the place, and leaves what stands further on.
pub fn write(report: Report, place: &mut [u8]) -> Result<(), Refusal>
    ensures { MatchResult result (λ _. FrameWritten report place.old place.new) (λ e. FrameUnwritten e report place.old place.new) }
{
    if !report.is_lawful() {
        return Err(Refusal::OutOfRange);
    }
    if place.len() < FRAME {
        return Err(Refusal::PlaceTooShort);
    }
    let bytes = to_frame(report);
    place[0..FRAME].copy_from_slice(&bytes);
    Ok(())
}
