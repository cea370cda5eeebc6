// The ring of frames in lent bytes, as a link.
ghost use Rattle.std.specs.Prelude.{◌≡◌, [], length, MatchOption, MatchResult, nat_lt};
ghost use Rattle.link.specs.Links.{Sends, Takes, MakesUp};
ghost use Rattle.frame_ring.specs.Places.{places_in, Filled};
ghost use Rattle.frame_ring.specs.Frames.{First, NotSent};
ghost use Rattle.frame_ring.specs.Ring.{memory, frame_view, frame_whole, next_slot, Sent, Taken};

use crate::places::{append_frame, read_place, whole_places};
use link::Link;
use report::{Refusal, Report};
use ring::Window;

// Reports wait as frames, one to each whole place of the lent bytes; what is left past the last whole place is never written.
// No model: clauses also pin the lent bytes, who lent them and the next place.
// Not a `Fifo`, as `ring::Window` says: its places are bytes that mean frames.
// Each value of the two fields is a ring. No ghost field, though free places and waiting reports always make up the capacity:
// a host's function that takes a ring by value and calls it would get no generated proof.
#[derive(Drop)]
pub struct FrameRing<'a> {
    bytes: &'a mut [u8],
    window: Window,
}

impl<'a> FrameRing<'a> {
    // An empty ring in the lent bytes, which stay as they are.
    #[tactic(auto, using(crate::proofs::Waiting::makes_up))]
    pub fn new(bytes: &'a mut [u8]) -> FrameRing<'a>
        ensures list { (frame_view result).waiting ≡ [] }
        ensures size { (frame_view result).capacity ≡ places_in bytes.old }
        ensures sum { MakesUp (frame_view result) }
        ensures lent { memory result ≡ bytes.old }
        ensures lender { result.bytes.ghost_name ≡ bytes.entry.ghost_name }
        ensures next { next_slot result ≡ 0 }
    {
        FrameRing {
            bytes,
            window: Window::EMPTY,
        }
    }

    // How many reports wait.
    #[tactic(auto, using(crate::proofs::Waiting::length_waiting, crate::proofs::Waiting::makes_up))]
    pub fn len(&self) -> usize
        ensures is { result ≡ length (frame_view self.now).waiting }
        ensures sum { MakesUp (frame_view self.now) }
    {
        self.window.filled(whole_places(self.bytes))
    }

    // How many more can wait: free places and waiting reports make up the capacity.
    pub fn room(&self) -> usize
        ensures is { result ≡ (frame_view self.now).free }
        ensures sum { MakesUp (frame_view self.now) }
    {
        whole_places(self.bytes) - self.len()
    }

    // The oldest, and the window that holds the others.
    // Through `&self`, so that a caller knows that the bytes stay.
    #[tactic(auto, using(crate::proofs::Waiting::none_waits))]
    fn oldest(&self) -> Option<(Report, Window)>
        ensures { MatchOption result ((frame_view self.now).waiting ≡ []) (λ p. First (memory self.now) self.now.window p.0 p.1) }
    {
        let turn = self.window.front(whole_places(self.bytes))?;
        Some((read_place(self.bytes, turn.place), turn.window))
    }
}

// Its capacity is the whole places in the bytes handed. Free places and waiting reports always make it up.
// A refused call leaves its whole value as it was, the lent bytes included.
impl<'a> Link for FrameRing<'a> {
    ghost view = { frame_view };

    ghost whole = { frame_whole };

    fn send(&mut self, r: Report) -> Result<(), Refusal>
        ensures sends { Sends (frame_view self.old) r result (frame_view self.new) }
        ensures wrote { MatchResult result (λ _. Sent self.old r self.new) (λ _. self.new ≡ self.old) }
        ensures sum { MakesUp (frame_view self.new) }
        ensures lender { self.new.bytes.ghost_name ≡ self.old.bytes.ghost_name }
    {
        self.window = append_frame(self.bytes, self.window, r)?;
        Ok(())
    }

    fn take(&mut self) -> Result<Report, Refusal>
        ensures takes { Takes (frame_view self.old) result (frame_view self.new) }
        ensures moved { MatchResult result (λ _. Taken self.old self.new) (λ _. self.new ≡ self.old) }
        ensures sum { MakesUp (frame_view self.new) }
        ensures lender { self.new.bytes.ghost_name ≡ self.old.bytes.ghost_name }
    {
        // no `ok_or` and `?`: they copy the report once more
        let Some((r, rest)) = self.oldest() else {
            return Err(Refusal::NothingWaits);
        };
        self.window = rest;
        Ok(r)
    }

    fn has_room(&self) -> bool
        ensures is { result ≡ nat_lt 0 (frame_view self.now).free }
        ensures sum { MakesUp (frame_view self.now) }
    {
        self.room() > 0
    }

    fn has_waiting(&self) -> bool
        ensures is { result ≡ nat_lt 0 (length (frame_view self.now).waiting) }
        ensures sum { MakesUp (frame_view self.now) }
    {
        self.len() > 0
    }
}

// Sends one report through an empty ring over some bytes, and says what their host finds in them once the ring is gone:
// the report's frame in the first place, and every other byte as it was. A refused report leaves every byte as it was.
pub fn send_once(bytes: &mut [u8], report: Report) -> Result<(), Refusal>
    ensures { MatchResult result (λ _. Filled bytes.old 0 report bytes.new) (λ e. NotSent bytes.old report e bytes.new) }
{
    let mut ring = FrameRing::new(bytes);
    ring.send(report)
}
