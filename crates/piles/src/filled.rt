// Two piles filled by `fill`, which is written for every link.
// Each filling promises the same of another pile, whose capacity is another number.
ghost use Rattle.std.specs.Prelude.{◌≡◌, ◌+◌, ◌*◌, [], length};
ghost use Rattle.frame_ring.specs.Places.{places_in};
ghost use Rattle.reserve.specs.Lies.{reserve_places, AllLawful};
ghost use Rattle.piles.specs.Batches.{sent_count, refusal_of, SentFirst, Stops, empty, Fills};
ghost use Rattle.piles.specs.Piles.{pile_view, EachPileStands};
ghost use Rattle.piles.specs.Piles.Kind.{records, frames, above};

use crate::batches::{Unsent, send_all};
use frame_ring::FrameRing;
use link::Link;
use report::Report;
use reserve::Reserve;
use ring::Fifo;

// Sends reports to a link in which nothing waits. The link is lent: a pile that is handed in and out is copied twice.
fn fill<L: Link>(link: &mut L, reports: &[Report]) -> Result<(), Unsent>
    requires { (L.Link.view link.old).waiting ≡ [] }
    ensures sent { SentFirst (empty (L.Link.view link.old).capacity) reports.now (sent_count reports.now result) (L.Link.view link.new) }
    ensures stops { Stops (refusal_of result) (L.Link.view link.new) reports.now (sent_count reports.now result) }
    ensures fills { AllLawful reports.now → Fills (L.Link.view link.old).capacity reports.now (sent_count reports.now result) (refusal_of result) (L.Link.view link.new) }
{
    send_all(link, reports)
}

// Sends reports to two reserves above an empty ring in the lent records: a place for each record lent, and eight for each reserve.
pub fn fill_records<'a>(
    memory: &'a mut [Report],
    reports: &[Report],
) -> (Reserve<Reserve<Fifo<'a, Report>>>, Result<(), Unsent>)
    ensures sent { SentFirst (empty (length memory.old + 2 * reserve_places)) reports.now (sent_count reports.now result.1) (pile_view (above (above records)) result.0) }
    ensures stops { Stops (refusal_of result.1) (pile_view (above (above records)) result.0) reports.now (sent_count reports.now result.1) }
    ensures fills { AllLawful reports.now → Fills (length memory.old + 2 * reserve_places) reports.now (sent_count reports.now result.1) (refusal_of result.1) (pile_view (above (above records)) result.0) }
    ensures every { EachPileStands }
{
    let mut pile = Reserve::new(Reserve::new(Fifo::new(memory)));
    let sent = fill(&mut pile, reports);
    (pile, sent)
}

// Sends reports to a reserve above an empty ring of frames in the lent bytes: a place for each whole frame, and eight for the reserve.
pub fn fill_frames<'a>(
    bytes: &'a mut [u8],
    reports: &[Report],
) -> (Reserve<FrameRing<'a>>, Result<(), Unsent>)
    ensures sent { SentFirst (empty (places_in bytes.old + reserve_places)) reports.now (sent_count reports.now result.1) (pile_view (above frames) result.0) }
    ensures stops { Stops (refusal_of result.1) (pile_view (above frames) result.0) reports.now (sent_count reports.now result.1) }
    ensures fills { AllLawful reports.now → Fills (places_in bytes.old + reserve_places) reports.now (sent_count reports.now result.1) (refusal_of result.1) (pile_view (above frames) result.0) }
    ensures every { EachPileStands }
{
    let mut layer = Reserve::new(FrameRing::new(bytes));
    let sent = fill(&mut layer, reports);
    (layer, sent)
}
