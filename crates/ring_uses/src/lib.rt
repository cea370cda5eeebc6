// What a host can rely on that lends memory to a queue: what the memory holds once the queue is
// gone, and that elements whose ranges are part of their type come out as they went in.
#![tactic(auto)]

ghost use Rattle.std.specs.Prelude.{◌≡◌, [], ◌∷◌, Some, None, MatchOption, slice_set};
ghost use Rattle.ring_uses.specs.Ranges.{Within};

use ring::Fifo;

// A few bursts: the range is part of the type.
#[derive(Clone, Copy, PartialEq, Eq, Debug)]
pub struct Bursts {
    count: u8,
    ghost few: { Within 1 3 count },
}

impl Bursts {
    // So many bursts, or nothing where there are none or more than three: out of range is the one reason.
    pub fn new(count: u8) -> Option<Bursts>
        ensures { MatchOption result (Within 1 3 count → ⊥) (λ b. b.count ≡ count) }
    {
        // `then` would be no plainer: its closure has to require the range once more
        if (1..=3).contains(&count) {
            Some(Bursts { count })
        } else {
            None
        }
    }
}

// An element that may hold a value with a range. `Nothing` is one of its cases, as it is of an order's, and no absent value.
#[derive(Clone, Copy, PartialEq, Eq, Debug)]
pub enum Slip {
    Nothing,
    Ended(u8),
    Sound(Bursts),
}

// Lends the places to a queue for one element: the first place holds it once the queue is gone, and
// every other place is as it was. Where there is no place, nothing is written.
pub fn store_first<T: Copy>(places: &mut [T], x: T)
    ensures { places.new ≡ slice_set places.old 0 x }
{
    let mut queue = Fifo::new(places);
    let _ = queue.push(x);
}

// Two places, three elements, the oldest taken out before the third came: the third stands where
// the first stood.
pub fn wrapped(a: Slip, b: Slip, c: Slip) -> [Slip; 2]
    ensures { result ≡ c ∷ b ∷ [] }
{
    let mut memory = [a; 2];
    let mut queue = Fifo::new(&mut memory);
    let _ = queue.push(a);
    let _ = queue.push(b);
    let _ = queue.pop();
    let _ = queue.push(c);
    memory
}

// What goes in comes out.
pub fn passed(bursts: Bursts) -> Option<Slip>
    ensures { result ≡ Some (Slip.Sound bursts) }
{
    let mut memory = [Slip::Nothing; 3];
    let mut queue = Fifo::new(&mut memory);
    let _ = queue.push(Slip::Sound(bursts));
    queue.pop()
}
