// The order that the host is given.
ghost use Rattle.std.specs.Prelude.{◌≡◌, Some};
ghost use Rattle.std.specs.Option.{option_copied};
ghost use Rattle.rules.specs.Orders.{advise_set, advise_answered, sound_of, by_operation_order, by_timer_order};
ghost use Rattle.table.specs.Places.{within};

use crate::place::Place;
use crate::reports::is_releasing;
use rules::{Connection, EValues, Operation, OrderKind, Period, Stage, Timer};

// Advise, if there is a set.
fn order_set(values: Option<EValues>) -> OrderKind
    ensures { result ≡ advise_set values }
{
    values.map_or(OrderKind::Nothing, OrderKind::Advise)
}

// Advise, after the answer.
fn order_answered(stage: &Stage, values: Option<EValues>) -> OrderKind
    ensures { result ≡ advise_answered stage.now values }
{
    match stage {
        Stage::Consultation | Stage::Waiting => OrderKind::Nothing,
        Stage::Answered(_) => order_set(values),
    }
}

// Sound the burst list of the open period.
fn order_sound(period: Option<Period>) -> OrderKind
    ensures { result ≡ sound_of period }
{
    period
        .and_then(|p| p.bursts)
        .map_or(OrderKind::Nothing, OrderKind::Sound)
}

// What an operation orders: the answer, or advise after it, orders the first set sent.
pub(crate) fn order_by(operation: &Operation, place: Option<&Place>) -> OrderKind
    ensures { result ≡ by_operation_order operation.now (within (option_copied place.entry)) }
{
    match operation {
        Operation::Bar | Operation::Disconnect => OrderKind::Ended,
        Operation::Advise(v) => place.map_or(
            OrderKind::Nothing,
            |p| order_answered(&p.connection.stage, Some(v.first)),
        ),
        Operation::Answer => order_set(place.and_then(|p| p.connection.sets.first)),
        Operation::SetUp
        | Operation::Continue
        | Operation::Instruct(_)
        | Operation::Confirm(_)
        | Operation::Repeat => OrderKind::Nothing,
    }
}

// What a firing orders: after the answer a due advice switch orders the second set sent.
pub(crate) fn order_at(timer: Timer, c: &Connection) -> OrderKind
    ensures { result ≡ by_timer_order timer (Some c.now) }
{
    match timer {
        Timer::TariffSwitch => OrderKind::Nothing,
        Timer::AdviceSwitch => order_answered(&c.stage, c.sets.second),
        Timer::Sound => order_sound(c.grant.period),
        Timer::PeriodEnd => {
            if is_releasing(&c.grant.period) {
                OrderKind::Ended
            } else {
                OrderKind::Nothing
            }
        }
        Timer::ConfirmationLimit => OrderKind::Ended,
    }
}
