// The search for the item that is due first.
ghost use Rattle.std.specs.Prelude.{◌≡◌};
ghost use Rattle.std.specs.Option.{option_map};
ghost use Rattle.rules.specs.Core.{dues_at};
ghost use Rattle.rules.specs.Dues.{due_of, item, sooner, soonest, if_due, earliest};
ghost use Rattle.rules.specs.Earliest.{Earliest};
ghost use Rattle.table.specs.State.{core_of};

use crate::place::Place;
use crate::table::Table;
use rules::{Dues, Item, Timer};

// When a timer is due, if it runs.
fn due(dues: &Dues, timer: Timer) -> Option<u32>
    ensures { result ≡ due_of dues.now timer }
{
    match timer {
        Timer::TariffSwitch => dues.tariff,
        Timer::AdviceSwitch => dues.advice,
        Timer::Sound => dues.sound,
        Timer::PeriodEnd => dues.end,
        Timer::ConfirmationLimit => dues.limit,
    }
}

// The item of a timer of a connection, if it runs.
fn item_of(place: &Place, timer: Timer) -> Option<Item>
    ensures { result ≡ item place.now.address timer (due_of place.now.connection.dues timer) }
{
    due(&place.connection.dues, timer).map(|tick| Item {
        tick,
        address: place.address,
        timer,
    })
}

// The first of two items, if there is one. No `min` of the two: the order of `Option` puts `None` first.
fn sooner_of(best: Option<Item>, next: Option<Item>) -> Option<Item>
    ensures { result ≡ sooner best next }
{
    match (best, next) {
        (Some(b), Some(x)) if b <= x => best,
        (_, Some(_)) => next,
        _ => best,
    }
}

// An item, if it is due at or before the tick.
fn if_due(tick: u32, item: Option<Item>) -> Option<Item>
    ensures { result ≡ if_due tick item }
{
    item.filter(|i| i.tick <= tick)
}

impl Table {
    // The first item of all connections, due or not.
    fn soonest(&self) -> Option<Item>
        ensures { result ≡ soonest (dues_at (core_of self.now)) }
    {
        // A rule of the project: a nested labelled loop that yields the item by `break`.
        let mut best: Option<Item> = None;
        let mut slots = self.slots.iter();
        'connections: loop {
            let Some(slot) = slots.next() else {
                break 'connections best;
            };
            let Some(place) = slot else {
                continue 'connections;
            };
            'timers: for timer in Timer::ALL {
                best = sooner_of(best, item_of(place, timer));
            }
        }
    }

    // The earliest item that is due at or before the tick.
    pub fn earliest(&self, tick: u32) -> Option<Item>
        ensures value { result ≡ earliest (dues_at (core_of self.now)) tick }
        ensures least { Earliest (dues_at (core_of self.now)) tick result }
    {
        if_due(tick, self.soonest())
    }

    // The tick of the first item, whatever the clock: when the host has to fire next.
    pub fn next_due(&self) -> Option<u32>
        ensures { result ≡ option_map (λ i. i.tick) (soonest (dues_at (core_of self.now))) }
    {
        self.soonest().map(|item| item.tick)
    }
}
