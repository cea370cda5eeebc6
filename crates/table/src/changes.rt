// What an admitted operation makes of a connection.
ghost use Rattle.std.specs.Prelude.{◌≡◌, ◌<◌, true, None};
ghost use Rattle.std.specs.Option.{option_copied};
ghost use Rattle.rules.specs.declared.call.Operation.TheVariants.{Instruct};
ghost use Rattle.rules.specs.Changes.{fresh, continued, instructed, stored, advised, answered, confirmed, by_operation};
ghost use Rattle.rules.specs.Core.{answered_at};
ghost use Rattle.rules.specs.Limits.{most_instructions};
ghost use Rattle.rules.specs.Ranges.{second_fits, fits};
ghost use Rattle.rules.specs.Rows.{operation_rows, first};
ghost use Rattle.table.specs.Places.{within};

use crate::periods::{advise_dues, answer_dues, instruct_dues, open_period};
use crate::place::Place;
use crate::tick::Tick;
use rules::{
    Advice, Connection, Dues, EValues, Grant, Instruction, Meter, Operation, Stage, StoredSets,
};

// The answer's tick, if there was an answer. Where another value goes with the stage, a match says it more plainly than this.
pub(crate) fn answer_tick(stage: &Stage) -> Option<u32>
    ensures { result ≡ answered_at stage.now }
{
    match stage {
        Stage::Consultation | Stage::Waiting => None,
        Stage::Answered(tick) => Some(*tick),
    }
}

// Set-up: a connection in consultation.
fn set_up() -> Connection
    ensures { result ≡ fresh }
{
    Connection {
        stage: Stage::Consultation,
        grant: Grant::default(),
        meter: Meter::default(),
        sets: StoredSets::default(),
        dues: Dues::default(),
        sent: 0,
        awaiting: None,
    }
}

// Continue: it waits for the answer.
fn go_on(c: &Connection) -> Connection
    ensures { result ≡ continued c.now }
{
    Connection {
        stage: Stage::Waiting,
        ..*c
    }
}

// Answer: an open period starts, and a stored first set is ordered.
fn answer(tick: Tick, place: &Place) -> Connection
    ensures { result ≡ answered tick.at place.now.connection }
{
    let c = &place.connection;
    Connection {
        stage: Stage::Answered(tick.at),
        sets: StoredSets {
            first: None,
            ..c.sets
        },
        dues: answer_dues(tick, place),
        ..*c
    }
}

// Instruct: a period opens, with no interval yet, and an awaiting report is confirmed.
fn instruct(tick: Tick, i: &Instruction, place: &Place) -> Connection
    requires fitting { fits (Instruct i.now) ≡ true }
    requires below { place.now.connection.grant.had < most_instructions }
    ensures { result ≡ instructed tick.at i.now place.now.connection }
{
    let c = &place.connection;
    Connection {
        grant: Grant {
            had: c.grant.had + 1,
            party: i.party,
            period: Some(open_period(tick, i)),
            previous: c.grant.previous,
        },
        meter: Meter {
            interval: None,
            ..c.meter
        },
        dues: instruct_dues(tick, i, place),
        awaiting: None,
        ..*c
    }
}

// Confirm: the wait ends.
fn confirm(c: &Connection) -> Connection
    ensures { result ≡ confirmed c.now }
{
    Connection {
        dues: Dues {
            limit: None,
            ..c.dues
        },
        awaiting: None,
        ..*c
    }
}

// Before the answer the first set is stored; after it, it is ordered at once.
fn store(stage: &Stage, values: EValues) -> Option<EValues>
    ensures { result ≡ stored stage.now values }
{
    match stage {
        Stage::Consultation | Stage::Waiting => Some(values),
        Stage::Answered(_) => None,
    }
}

// Advise: the sets are stored over any earlier ones.
fn advise(tick: Tick, v: &Advice, c: &Connection) -> Connection
    requires { second_fits v.now.second ≡ true }
    ensures { result ≡ advised tick.at v.now c.now }
{
    Connection {
        sets: StoredSets {
            first: store(&c.stage, v.first),
            second: v.second.map(|s| s.set),
        },
        dues: advise_dues(tick, &v.second, &c.dues),
        ..*c
    }
}

// What becomes of the connection at an address by an operation that is admitted. `operation_fits` tested the ranges of its
// values: a checked copy of each would double the types.
pub(crate) fn operate(
    operation: &Operation,
    tick: Tick,
    place: Option<&Place>,
) -> Option<Connection>
    requires fitting { fits operation.now ≡ true }
    requires admitted { first (operation_rows true operation.now (within (option_copied place)) 0) ≡ None }
    ensures { result ≡ by_operation operation.now tick.at (within (option_copied place.entry)) }
{
    match (operation, place) {
        (Operation::SetUp, _) => Some(set_up()),
        (_, None) | (Operation::Bar | Operation::Disconnect, _) => None,
        (Operation::Continue, Some(p)) => Some(go_on(&p.connection)),
        (Operation::Instruct(i), Some(p)) => Some(instruct(tick, i, p)),
        (Operation::Advise(v), Some(p)) => Some(advise(tick, v, &p.connection)),
        (Operation::Answer, Some(p)) => Some(answer(tick, p)),
        (Operation::Confirm(_), Some(p)) => Some(confirm(&p.connection)),
        (Operation::Repeat, Some(p)) => Some(p.connection),
    }
}
