// Bytes as places of one frame each.
// Functions over lent bytes that write one place and leave the rest: the project's form for records, and frames follow it.
ghost use Rattle.std.specs.Prelude.{◌≡◌, ◌<◌, if◌then◌else◌, MatchResult};
ghost use Rattle.report.specs.Lawful.{lawful};
ghost use Rattle.report.specs.declared.refusal.Refusal.TheVariants.{OutOfRange, NoFreePlace};
ghost use Rattle.frame_ring.specs.Places.{places_in, place_at, Filled, NotFilled};
ghost use Rattle.frame_ring.specs.Frames.{Appended, NotAppended};

use frame::{FRAME, read, write};
use report::{Refusal, Report};
use ring::Window;

// How many whole places the bytes make.
pub(crate) fn whole_places(bytes: &[u8]) -> usize
    ensures { result ≡ places_in bytes.now }
{
    bytes.len() / FRAME
}

// The report in a place: a blank one where no frame stands in it.
// In a ring made by `new` each waiting place holds a frame; the meaning is total, so that every place means a report.
pub(crate) fn read_place(bytes: &[u8], i: usize) -> Report
    requires { i < places_in bytes.now }
    ensures { result ≡ place_at bytes.now i }
{
    let at = FRAME * i;
    read(&bytes[at..at + FRAME]).map_or(Report::BLANK, |(report, _)| report)
}

// Writes a report's frame into a place. A report that no frame can hold is refused, and the bytes stay.
fn write_place(bytes: &mut [u8], i: usize, report: Report) -> Result<(), Refusal>
    requires { i < places_in bytes.old }
    ensures { MatchResult result (λ _. Filled bytes.old i report bytes.new) (λ e. NotFilled bytes.old e report bytes.new) }
{
    let at = FRAME * i;
    write(report, &mut bytes[at..at + FRAME])
}

// Why a report is refused while no place is free: a report that no frame can hold is refused as such.
fn unplaced(report: Report) -> Refusal
    ensures { result ≡ (if lawful report then NoFreePlace else OutOfRange) }
{
    if report.is_lawful() {
        Refusal::NoFreePlace
    } else {
        Refusal::OutOfRange
    }
}

// Writes a report's frame into the place behind those that wait, or nothing where it is refused.
pub(crate) fn append_frame(
    bytes: &mut [u8],
    window: Window,
    report: Report,
) -> Result<Window, Refusal>
    ensures { MatchResult result (Appended bytes.old window report bytes.new) (λ e. NotAppended bytes.old window report e bytes.new) }
{
    let turn = window
        .behind(whole_places(bytes))
        .ok_or_else(|| unplaced(report))?;
    write_place(bytes, turn.place, report)?;
    Ok(turn.window)
}
