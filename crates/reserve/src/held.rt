// The places of a reserve.
ghost use Rattle.std.specs.Prelude.{◌≡◌, ◌<◌, ◌≤◌, [], ◌∷◌, length, MatchBool, MatchOption, MatchResult};
ghost use Rattle.ring.specs.Slots.{list};
ghost use Rattle.reserve.specs.Lies.{reserve_places, kept, Kept, NotKept};

use link::append_record;
use report::Report;
use ring::{Full, Window, first};

// So many places a reserve has of its own.
pub const RESERVE_PLACES: usize = 8;

// The held reports, oldest first. No model: a refused call leaves every place as it was, and a list would say less.
// Not a `Fifo`, as `ring::Window` says: its places are its own, neither lent nor on a heap.
#[derive(Clone, Copy)]
pub struct Held {
    places: [Report; RESERVE_PLACES],
    window: Window,
}

impl Held {
    // Nothing held.
    pub(crate) fn new() -> Held
        ensures { kept result ≡ [] }
    {
        Held {
            places: [Report::BLANK; RESERVE_PLACES],
            window: Window::EMPTY,
        }
    }

    // How many are held.
    pub(crate) fn len(&self) -> usize
        ensures is { result ≡ length (kept self.now) }
        ensures few { result ≤ reserve_places }
    {
        self.window.filled(self.places.len())
    }

    // Whether nothing is held.
    pub(crate) fn is_empty(&self) -> bool
        ensures { MatchBool result (kept self.now ≡ []) (0 < length (kept self.now)) }
    {
        self.len() == 0
    }

    // Holds one more, or changes nothing where every place is taken.
    pub(crate) fn push(&mut self, r: Report) -> Result<(), Full>
        ensures { MatchResult result (λ _. Kept self.old r self.new) (λ _. NotKept self.old self.new) }
    {
        self.window = append_record(&mut self.places, self.window, r).ok_or(Full)?;
        Ok(())
    }

    // The oldest, and the window that holds the others.
    pub(crate) fn oldest(&self) -> Option<(Report, Window)>
        ensures { MatchOption result (kept self.now ≡ []) (λ p. kept self.now ≡ p.0 ∷ list self.now.places p.1) }
    {
        first(&self.places, self.window)
    }

    // Holds what the window holds.
    pub(crate) fn keep(&mut self, window: Window)
        ensures { kept self.new ≡ list self.old.places window }
    {
        self.window = window;
    }
}
