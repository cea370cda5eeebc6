// Whole rows of reports, through any link.
ghost use Rattle.std.specs.Prelude.{◌≡◌, ◌≤◌, min, [], length, take, Ok, Err, MatchResult};
ghost use Rattle.link.specs.Links.{Sends};
ghost use Rattle.reserve.specs.Lies.{AllLawful};
ghost use Rattle.piles.specs.Calls.{Calls};
ghost use Rattle.piles.specs.Batches.{sent_count, refusal_of, SentFirst, Stops, TookFirst, Fills, Empties};

use link::Link;
use report::{Refusal, Report};

// After so many reports of a row the next one was refused. Like account's `Stop`, in a crate that knows no accounts.
#[derive(Clone, Copy, PartialEq, Eq, Debug)]
pub struct Unsent {
    pub count: usize,
    pub refusal: Refusal,
}

// Sends the report that stands after so many others of its row.
fn send_at<L: Link>(link: &mut L, count: usize, report: Report) -> Result<(), Unsent>
    ensures { MatchResult result (λ _. Sends (L.Link.view link.old) report (Ok tt) (L.Link.view link.new)) (λ u. (u.count ≡ count) × Sends (L.Link.view link.old) report (Err u.refusal) (L.Link.view link.new)) }
{
    link.send(report)
        .map_err(|refusal| Unsent { count, refusal })
}

// Sends reports in their order until one is refused. So an empty link is filled by lawful reports to its last place.
pub fn send_all<L: Link>(link: &mut L, reports: &[Report]) -> Result<(), Unsent>
    ensures sent { SentFirst (L.Link.view link.old) reports.now (sent_count reports.now result) (L.Link.view link.new) }
    ensures stops { Stops (refusal_of result) (L.Link.view link.new) reports.now (sent_count reports.now result) }
    ensures calls { Calls (L.Link.view link.old) (take (sent_count reports.now result) reports.now) [] (L.Link.view link.new) }
    ensures fills { (L.Link.view link.old).waiting ≡ [] → AllLawful reports.now → Fills (L.Link.view link.old).capacity reports.now (sent_count reports.now result) (refusal_of result) (L.Link.view link.new) }
{
    for (count, report) in reports.iter().enumerate() {
        send_at(link, count, *report)?;
    }
    Ok(())
}

// Takes reports, oldest first, into a lent place, until it is full or nothing waits, and says how many: a count, as its
// public contract has it. So a link whose reports fit into the place is emptied.
pub fn take_all<L: Link>(link: &mut L, place: &mut [Report]) -> usize
    ensures took { TookFirst (L.Link.view link.old) place.old result place.new (L.Link.view link.new) }
    ensures stops { result ≡ min (length place.old) (length (L.Link.view link.old).waiting) }
    ensures calls { Calls (L.Link.view link.old) [] (take result place.new) (L.Link.view link.new) }
    ensures empties { length (L.Link.view link.old).waiting ≤ length place.old → Empties (L.Link.view link.old) result place.new (L.Link.view link.new) }
{
    for (taken, slot) in place.iter_mut().enumerate() {
        let Ok(report) = link.take() else {
            // a take is refused only where nothing waits
            return taken;
        };
        *slot = report;
    }
    place.len()
}
