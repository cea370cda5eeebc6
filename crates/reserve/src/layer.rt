// A layer of eight places above any link, a reserve too.
ghost use Rattle.std.specs.Prelude.{◌≡◌, ◌<◌, true, false, [], length, MatchResult};
ghost use Rattle.report.specs.declared.refusal.Refusal.TheVariants.{NoFreePlace, NothingWaits};
ghost use Rattle.report.specs.Lawful.{lawful};
ghost use Rattle.link.specs.Links.{Sends, Takes};
ghost use Rattle.reserve.specs.Lies.{kept, lies, layer_view, layer_whole, goes_down, sent, Placed, Moves, Rests, Settles, Taken, TakenOut, Sound};

use crate::held::{Held, RESERVE_PLACES};
use link::Link;
use report::{Refusal, Report};

// The list is the link's below, then the held ones. A reserve asks before it calls, so that what it
// refuses leaves its whole value as it was, whatever the link below does where it refuses.
// `Sound` stands in three contracts: `new` promises it, a send and a take keep it. A ghost field would have to hold where
// `take_below` calls `settle`, and there it may not: `settle` and `move_down` over the two fields would be no plainer.
#[derive(Drop)]
pub struct Reserve<L: Link> {
    below: L,
    held: Held,
}

impl<L: Link> Reserve<L> {
    // A reserve that holds nothing, above a link.
    pub fn new(below: L) -> Reserve<L>
        ensures below { result.below ≡ below }
        ensures none { kept result.held ≡ [] }
        ensures sound { Sound (lies L.Link.view result) }
    {
        Reserve {
            below,
            held: Held::new(),
        }
    }

    // How many reports are held.
    pub fn held(&self) -> usize
        ensures { result ≡ length (kept self.now.held) }
    {
        self.held.len()
    }

    // The link below, of a reserve that holds nothing; else the reserve, so that no report is lost.
    pub fn into_below(self) -> Result<L, Reserve<L>>
        ensures { MatchResult result (λ b. (kept self.held ≡ []) × (b ≡ self.below)) (λ s. (0 < length (kept self.held)) × (s ≡ self)) }
    {
        if self.held.is_empty() {
            Ok(self.below)
        } else {
            Err(self)
        }
    }

    // Whether a sent report goes down.
    fn goes_down(&self) -> bool
        ensures { result ≡ goes_down (lies L.Link.view self.now) }
    {
        self.held.is_empty() && self.below.has_room()
    }

    // Sends a report down.
    fn send_down(&mut self, r: Report) -> Result<(), Refusal>
        requires lawful { lawful r ≡ true }
        requires down { goes_down (lies L.Link.view self.old) ≡ true }
        ensures { MatchResult result (λ _. Placed (lies L.Link.view self.old) r (lies L.Link.view self.new)) (λ _. ⊥) }
    {
        self.below.send(r)
    }

    // Holds a report, where a place is left.
    fn hold(&mut self, r: Report) -> Result<(), Refusal>
        requires lawful { lawful r ≡ true }
        requires here { goes_down (lies L.Link.view self.old) ≡ false }
        ensures { MatchResult result (λ _. Placed (lies L.Link.view self.old) r (lies L.Link.view self.new)) (λ e. (e ≡ NoFreePlace) × ((layer_view L.Link.view self.old).free ≡ 0) × (self.new ≡ self.old)) }
    {
        self.held.push(r).map_err(|_| Refusal::NoFreePlace)
    }

    // Moves the oldest held report down where a place is free.
    fn move_down(&mut self) -> Result<(), Refusal>
        ensures { MatchResult result (λ _. Moves (lies L.Link.view self.old) (lies L.Link.view self.new)) (λ _. Rests (lies L.Link.view self.old) (lies L.Link.view self.new)) }
    {
        if !self.below.has_room() {
            return Err(Refusal::NoFreePlace);
        }
        let (r, rest) = self.held.oldest().ok_or(Refusal::NothingWaits)?;
        // what is held was lawful when it came, so that this link never refuses it
        self.below.send(r)?;
        self.held.keep(rest);
        Ok(())
    }

    // Moves held reports down while places are free.
    fn settle(&mut self)
        ensures { Settles (lies L.Link.view self.old) (lies L.Link.view self.new) }
    {
        while self.move_down().is_ok() {}
    }

    // Takes the oldest of those below.
    fn take_below(&mut self) -> Result<Report, Refusal>
        requires { 0 < length (L.Link.view self.old.below).waiting }
        ensures { MatchResult result (λ r. TakenOut (lies L.Link.view self.old) r (lies L.Link.view self.new)) (λ _. ⊥) }
    {
        let r = self.below.take()?;
        self.settle();
        Ok(r)
    }

    // Takes the oldest of the held ones, where nothing waits below.
    fn take_held(&mut self) -> Result<Report, Refusal>
        requires { length (L.Link.view self.old.below).waiting ≡ 0 }
        ensures { MatchResult result (λ r. TakenOut (lies L.Link.view self.old) r (lies L.Link.view self.new)) (λ e. (e ≡ NothingWaits) × ((layer_view L.Link.view self.old).waiting ≡ []) × (self.new ≡ self.old)) }
    {
        let (r, rest) = self.held.oldest().ok_or(Refusal::NothingWaits)?;
        self.held.keep(rest);
        self.settle();
        Ok(r)
    }
}

impl<L: Link> Link for Reserve<L> {
    ghost view = { layer_view L.Link.view };

    ghost whole = { layer_whole L.Link.view L.Link.whole };

    fn send(&mut self, r: Report) -> Result<(), Refusal>
        ensures sends { Sends (layer_view L.Link.view self.old) r result (layer_view L.Link.view self.new) }
        ensures lies { MatchResult result (λ _. lies L.Link.view self.new ≡ sent (lies L.Link.view self.old) r) (λ _. self.new ≡ self.old) }
        ensures sound { Sound (lies L.Link.view self.old) → Sound (lies L.Link.view self.new) }
    {
        if !r.is_lawful() {
            return Err(Refusal::OutOfRange);
        }
        if self.goes_down() {
            self.send_down(r)
        } else {
            self.hold(r)
        }
    }

    fn take(&mut self) -> Result<Report, Refusal>
        ensures takes { Takes (layer_view L.Link.view self.old) result (layer_view L.Link.view self.new) }
        ensures lies { MatchResult result (λ r. (Sound (lies L.Link.view self.old) → Taken (lies L.Link.view self.old) r (lies L.Link.view self.new))) (λ _. self.new ≡ self.old) }
        ensures sound { Sound (lies L.Link.view self.old) → Sound (lies L.Link.view self.new) }
    {
        if self.below.has_waiting() {
            self.take_below()
        } else {
            self.take_held()
        }
    }

    fn has_room(&self) -> bool {
        self.held() < RESERVE_PLACES
    }

    fn has_waiting(&self) -> bool {
        !self.held.is_empty() || self.below.has_waiting()
    }
}
