// What is written reads back, and what is read would be written so.
ghost use Rattle.std.specs.Result.{MatchResult};
ghost use Rattle.frame.specs.Frame.{Back, NotBack, RoundTrip};

use crate::layout::FRAME;
use crate::reader::read;
use crate::writer::write;
use report::{Refusal, Report};

// Writes the report's frame into a place of its own, and reads it. `frames_read_back`, which has the theorem, calls this function,
// which does the work, so that its proof is about one result.
fn write_and_read(report: Report) -> Result<Report, Refusal>
    ensures { MatchResult result (λ q. Back report q) (λ e. NotBack report e) }
{
    let mut place = [0; FRAME];
    write(report, &mut place)?;
    let (back, _) = read(&place)?;
    Ok(back)
}

// Sends a report through its frame: a lawful one comes back as it was. That this holds of every frame, and the other way round,
// stands in the promise too.
pub fn frames_read_back(report: Report) -> Result<Report, Refusal>
    ensures back { MatchResult result (λ q. Back report q) (λ e. NotBack report e) }
    ensures all { RoundTrip }
{
    write_and_read(report)
}
