// A bounded queue in memory that the host lends.
ghost use Rattle.std.specs.Prelude.{◌≡◌, ◌+◌, [], length, MatchOption, MatchResult};
ghost use Rattle.ring.specs.Slots.{Heads};
ghost use Rattle.ring.specs.Queue.{waiting, capacity, free, memory, next_slot, Pushed, NotPushed, Popped, NotPopped};

use crate::window::{Window, append, first};

// The queue has as many places as are lent. Each value of the two fields is a queue, so there is no ghost field: one would
// ask a proof of whoever writes the fields. Clauses name the fields, since they pin the lent memory: so there is no model.
#[derive(Drop)]
pub struct Fifo<'a, T> {
    pub places: &'a mut [T],
    pub window: Window,
}

// Every place of a queue is taken.
#[derive(Clone, Copy, PartialEq, Eq, Debug)]
pub struct Full;

impl<'a, T: Copy> Fifo<'a, T> {
    // An empty queue in the lent places, which stay as they are.
    pub fn new(places: &'a mut [T]) -> Fifo<'a, T>
        ensures list { waiting result ≡ [] }
        ensures lent { memory result ≡ places.old }
        ensures lender { result.places.ghost_name ≡ places.entry.ghost_name }
        ensures next { next_slot result ≡ 0 }
    {
        Fifo {
            places,
            window: Window::EMPTY,
        }
    }

    // How many wait.
    pub fn len(&self) -> usize
        ensures is { result ≡ length (waiting self.now) }
        ensures rest { result + free self.now ≡ capacity self.now }
    {
        self.window.filled(self.places.len())
    }

    // How many more can wait: free places and those that wait make up the capacity.
    pub fn room(&self) -> usize
        ensures is { result ≡ free self.now }
        ensures rest { result + length (waiting self.now) ≡ capacity self.now }
    {
        self.places.len() - self.len()
    }

    // Puts one behind those that wait, or changes nothing where every place is taken.
    pub fn push(&mut self, x: T) -> Result<(), Full>
        ensures does { MatchResult result (λ _. Pushed self.old x self.new) (λ _. NotPushed self.old self.new) }
        ensures lender { self.new.places.ghost_name ≡ self.old.places.ghost_name }
    {
        self.window = append(self.places, self.window, x).ok_or(Full)?;
        Ok(())
    }

    // The oldest, and the window that holds the others.
    // Through `&self`, so that a caller knows that the memory stays.
    fn oldest(&self) -> Option<(T, Window)>
        ensures { MatchOption result (waiting self.now ≡ []) (λ p. Heads (memory self.now) self.now.window p.0 p.1) }
    {
        first(self.places, self.window)
    }

    // Takes the oldest out, or changes nothing where none waits.
    pub fn pop(&mut self) -> Option<T>
        ensures does { MatchOption result (NotPopped self.old self.new) (λ x. Popped self.old x self.new) }
        ensures lender { self.new.places.ghost_name ≡ self.old.places.ghost_name }
    {
        let (x, next) = self.oldest()?;
        self.window = next;
        Some(x)
    }
}
