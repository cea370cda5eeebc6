// A queue in a row of places. A write takes one place, and leaves the others as they are.
// The rings of elements, of frames and of a reserve share this. One ring over a trait of places would be no plainer: what each
// promises of its own memory (records, bytes past the last frame, an array inside a value) would stand in the trait as well.
ghost use Rattle.std.specs.Prelude.{◌≡◌, [], MatchOption};
ghost use Rattle.ring.specs.Slots.{start_of, count_of, Enters, Leaves, list, Appends, Refused, Heads};

// Which places hold the queue: `count` of them from `head` on, round the end of the row.
// Every value means a queue in every row: a head past the row means its first place, and a count
// past its size means all places.
#[derive(Clone, Copy, PartialEq, Eq, Debug)]
pub struct Window {
    pub head: usize,
    pub count: usize,
}

// A place of the row, and the window once that place is filled or given back.
#[derive(Clone, Copy, PartialEq, Eq, Debug)]
pub struct Turn {
    pub place: usize,
    pub window: Window,
}

impl Window {
    // Nothing waits, and the next to come stands in the first place.
    pub const EMPTY: Window = Window { head: 0, count: 0 };

    // How many wait in a row of `size` places.
    pub fn filled(self, size: usize) -> usize
        ensures { result ≡ count_of size self }
    {
        self.count.min(size)
    }

    // The place of the oldest, or of the next to come where none waits.
    fn start(self, size: usize) -> usize
        ensures { result ≡ start_of size self }
    {
        if self.head < size { self.head } else { 0 }
    }

    // The place behind those that wait, and the window with it; nothing where every place is taken.
    pub fn behind(self, size: usize) -> Option<Turn>
        ensures { MatchOption result (count_of size self ≡ size) (Enters size self) }
    {
        let head = self.start(size);
        let count = self.filled(size);
        if count == size {
            return None;
        }
        let left = size - head;
        let place = if count < left {
            head + count
        } else {
            count - left
        };
        let window = Window {
            head,
            count: count + 1,
        };
        Some(Turn { place, window })
    }

    // The place of the oldest, and the window without it; nothing where none waits.
    pub fn front(self, size: usize) -> Option<Turn>
        ensures { MatchOption result (count_of size self ≡ 0) (Leaves size self) }
    {
        let place = self.start(size);
        let count = self.filled(size);
        if count == 0 {
            return None;
        }
        let window = Window {
            head: if place + 1 < size { place + 1 } else { 0 },
            count: count - 1,
        };
        Some(Turn { place, window })
    }
}

// Writes `x` behind those that wait, or nothing where every place is taken.
// An `Option`, as of `behind`: each caller has a refusal of its own for it, so that an error type here would be mapped each time.
pub fn append<T: Copy>(places: &mut [T], window: Window, x: T) -> Option<Window>
    ensures { MatchOption result (Refused places.old window places.new) (Appends places.old window x places.new) }
{
    let turn = window.behind(places.len())?;
    places[turn.place] = x;
    Some(turn.window)
}

// The oldest of those that wait, and the window that holds the others.
pub fn first<T: Copy>(places: &[T], window: Window) -> Option<(T, Window)>
    ensures { MatchOption result (list places.now window ≡ []) (λ p. Heads places.now window p.0 p.1) }
{
    let turn = window.front(places.len())?;
    Some((places[turn.place], turn.window))
}
