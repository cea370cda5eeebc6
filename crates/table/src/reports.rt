// The reports that a connection makes.
ghost use Rattle.std.specs.Prelude.{◌≡◌, [], ◌∷◌, Some};
ghost use Rattle.rules.specs.Changes.{made, releases};
ghost use Rattle.rules.specs.Core.{answered_at};
ghost use Rattle.rules.specs.Reports.{listed, last_report, end_report, by_operation_sent, by_timer_sent};
ghost use Rattle.rules.specs.Times.{interval_at};

use crate::changes::answer_tick;
use crate::place::Place;
use report::{Elapsed, Report, Standing};
use rules::{Connection, Item, Operation, Period, Timer};

// The ticks up to `asof`, from the later of answer and last switch; none before the answer.
pub(crate) fn interval_to(asof: u32, c: &Connection) -> Option<u32>
    ensures { result ≡ interval_at (answered_at c.now.stage) c.now.meter.last asof }
{
    let last = c.meter.last.unwrap_or(0);
    answer_tick(&c.stage).map(|answer| asof.saturating_sub(answer.max(last)))
}

// The report of a connection as of a tick: one number up, and the time by the answer and the switches counted. A tick and
// no `&Item`: an operation makes reports too.
pub(crate) fn make(asof: u32, standing: Standing, place: &Place) -> Report
    ensures { result ≡ made place.now.address asof standing place.now.connection }
{
    let c = &place.connection;
    let time = interval_to(asof, c).unwrap_or(0);
    Report {
        address: place.address,
        number: c.sent + 1,
        party: c.grant.party,
        tick: asof,
        standing,
        elapsed: if c.meter.switches == 0 {
            Elapsed::Plain(time)
        } else {
            Elapsed::Switched {
                time,
                interval: c.meter.interval,
            }
        },
    }
}

// Whether the open period has the release mark.
pub(crate) fn is_releasing(period: &Option<Period>) -> bool
    ensures { result ≡ releases period.now }
{
    period.as_ref().is_some_and(|p| p.release)
}

// Only an ending connection that ever had an instruction sends a last report.
fn report_last(asof: u32, place: &Place) -> Option<Report>
    ensures { listed result ≡ last_report place.now.address asof (Some place.now.connection) }
{
    if place.connection.grant.had == 0 {
        None
    } else {
        Some(make(asof, Standing::Ended, place))
    }
}

// A period end sends a report, with the release mark the last.
fn report_end(asof: u32, place: &Place) -> Report
    ensures { result ∷ [] ≡ end_report place.now.address asof (Some place.now.connection) }
{
    let standing = if is_releasing(&place.connection.grant.period) {
        Standing::Released
    } else {
        Standing::Active
    };
    make(asof, standing, place)
}

// What an operation sends: ends send a last report, and a repeat the awaiting report once more, unchanged.
pub(crate) fn report_by(operation: &Operation, tick: u32, place: &Place) -> Option<Report>
    ensures { listed result ≡ by_operation_sent operation.now place.now.address tick (Some place.now.connection) }
{
    match operation {
        Operation::Bar | Operation::Disconnect => report_last(tick, place),
        Operation::Repeat => place.connection.awaiting,
        Operation::SetUp
        | Operation::Continue
        | Operation::Instruct(_)
        | Operation::Advise(_)
        | Operation::Answer
        | Operation::Confirm(_) => None,
    }
}

// What a firing sends: a period end its report, a due confirmation limit a last one.
pub(crate) fn report_at(item: &Item, place: &Place) -> Option<Report>
    ensures { listed result ≡ by_timer_sent item.now.timer place.now.address item.now.tick (Some place.now.connection) }
{
    match item.timer {
        Timer::TariffSwitch | Timer::AdviceSwitch | Timer::Sound => None,
        Timer::PeriodEnd => Some(report_end(item.tick, place)),
        Timer::ConfirmationLimit => report_last(item.tick, place),
    }
}
