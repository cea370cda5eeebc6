// What the firing of a timer makes of a connection.
ghost use Rattle.std.specs.Prelude.{◌≡◌, ◌≤◌, Some};
ghost use Rattle.rules.specs.Changes.{switched, taken_over, changed_over, sounded, closed, by_timer};
ghost use Rattle.rules.specs.Limits.{longest_wait};

use crate::place::Place;
use crate::reports::{interval_to, is_releasing, make};
use crate::tick::Tick;
use report::Standing;
use rules::{Connection, Dues, Grant, Item, Meter, Stage, StoredSets, Timer};

// A tariff switch counts one switch at its due tick, and after the answer an interval ends with it. A tick and no `&Item`,
// as in `make`.
fn switch_over(asof: u32, place: &Place) -> Connection
    ensures { result ≡ switched asof place.now.connection }
{
    let c = &place.connection;
    Connection {
        meter: Meter {
            switches: c.meter.switches + 1,
            last: Some(asof),
            interval: interval_to(asof, c),
        },
        dues: Dues {
            tariff: None,
            ..c.dues
        },
        ..*c
    }
}

// Before the answer the second set becomes the first; after it, it is ordered.
fn take_over(stage: &Stage, sets: &StoredSets) -> StoredSets
    ensures { result ≡ taken_over stage.now sets.now }
{
    let first = match stage {
        Stage::Consultation | Stage::Waiting => sets.second,
        Stage::Answered(_) => sets.first,
    };
    StoredSets {
        first,
        second: None,
    }
}

// An advice switch.
fn change_over(c: &Connection) -> Connection
    ensures { result ≡ changed_over c.now }
{
    Connection {
        sets: take_over(&c.stage, &c.sets),
        dues: Dues {
            advice: None,
            ..c.dues
        },
        ..*c
    }
}

// A sound.
fn sound(c: &Connection) -> Connection
    ensures { result ≡ sounded c.now }
{
    Connection {
        dues: Dues {
            sound: None,
            ..c.dues
        },
        ..*c
    }
}

// A period end without the release mark closes the period, drops unspent switches, and its report awaits confirmation.
fn close(asof: u32, limit: u32, place: &Place) -> Connection
    ensures { result ≡ closed place.now.address asof limit place.now.connection }
{
    let c = &place.connection;
    Connection {
        grant: Grant {
            period: None,
            previous: Some(asof),
            ..c.grant
        },
        meter: Meter {
            interval: None,
            ..c.meter
        },
        sets: StoredSets {
            second: None,
            ..c.sets
        },
        dues: Dues {
            tariff: None,
            advice: None,
            sound: c.dues.sound,
            end: None,
            limit: Some(limit),
        },
        sent: c.sent + 1,
        awaiting: Some(make(asof, Standing::Active, place)),
        ..*c
    }
}

// What becomes of a connection by an item of it that is fired at `tick`.
pub(crate) fn fire_timer(wait: u32, item: &Item, tick: Tick, place: &Place) -> Option<Connection>
    requires { wait ≤ longest_wait }
    ensures { result ≡ by_timer wait item.now.timer place.now.address item.now.tick tick.at (Some place.now.connection) }
{
    let c = &place.connection;
    match item.timer {
        Timer::TariffSwitch => Some(switch_over(item.tick, place)),
        Timer::AdviceSwitch => Some(change_over(c)),
        Timer::Sound => Some(sound(c)),
        Timer::PeriodEnd => {
            if is_releasing(&c.grant.period) {
                None
            } else {
                Some(close(item.tick, tick.at + wait, place))
            }
        }
        Timer::ConfirmationLimit => None,
    }
}
