// The rules of periods, sounds and switches, on ticks: when a period ends, and what is due when.
ghost use Rattle.std.specs.Prelude.{◌≡◌, ◌*◌, ◌≤◌, true};
ghost use Rattle.std.specs.Option.{option_map};
ghost use Rattle.bursts.specs.Limits.{longest_warning};
ghost use Rattle.bursts.specs.Made.{numbers_of};
ghost use Rattle.report.specs.Limits.{last_tick};
ghost use Rattle.rules.specs.declared.call.Operation.TheVariants.{Instruct};
ghost use Rattle.rules.specs.Changes.{period_of, terms_of};
ghost use Rattle.rules.specs.Core.{answered_at};
ghost use Rattle.rules.specs.Limits.{second, longest_period, longest_switch};
ghost use Rattle.rules.specs.Periods.{period_end, sound_due, started, switch_due, dues_instructed, dues_answered, dues_advised};
ghost use Rattle.rules.specs.Ranges.{second_fits, fits};

use crate::place::Place;
use crate::tick::Tick;
use bursts::BurstList;
use rules::limits::SECOND;
use rules::{Dues, Instruction, Period, SecondSet, Stage};

// The ticks before the period's end at which a sound starts.
pub(crate) fn warning_of(b: &BurstList) -> u32
    ensures value { result ≡ second * (numbers_of b.now).warning }
    ensures most { result ≤ second * longest_warning }
{
    SECOND * u32::from(b.numbers().warning)
}

// A period whose start is known.
#[derive(Clone, Copy)]
struct Started<'a> {
    start: Tick,
    period: &'a Period,
    ghost short: { period.now.maximum ≤ longest_period },
}

impl Started<'_> {
    // It ends at its start plus the maximum, or when it was given if that is later.
    fn end(&self) -> u32
        ensures { result ≡ period_end self.now.start.at (terms_of self.now.period.now) }
    {
        (self.start.at + self.period.maximum).max(self.period.given)
    }

    // When its sound is due, if it does not fall away.
    fn sound(&self) -> Option<u32>
        ensures { result ≡ sound_due self.now.start.at (terms_of self.now.period.now) (terms_of self.now.period.now).warning }
    {
        let ahead = warning_of(self.period.bursts.as_ref()?);
        let earliest = self.start.at.max(self.period.given);
        self.end().checked_sub(ahead).filter(|due| earliest <= *due)
    }

    // Its end is due, and its sound.
    fn dues(&self, d: &Dues) -> Dues
        ensures { result ≡ started self.now.start.at (terms_of self.now.period.now) d.now }
    {
        Dues {
            sound: self.sound(),
            end: Some(self.end()),
            ..*d
        }
    }
}

// A switch is due so many seconds after its call.
fn switch_at(tick: Tick, seconds: u32) -> u32
    requires { seconds ≤ longest_switch }
    ensures { result ≡ switch_due tick.at seconds }
{
    tick.at + SECOND * seconds
}

// The period that an instruction opens.
pub(crate) fn open_period(tick: Tick, i: &Instruction) -> Period
    ensures { result ≡ period_of tick.at i.now }
{
    Period {
        maximum: i.maximum,
        release: i.release,
        bursts: i.bursts,
        given: tick.at,
    }
}

// An instruction: its switch is due, and no report awaits any more. After the answer the period starts at the previous
// period's end, or at once if there was none. The period is made here and not handed in, so that its maximum is known
// to be in range.
pub(crate) fn instruct_dues(tick: Tick, i: &Instruction, place: &Place) -> Dues
    requires { fits (Instruct i.now) ≡ true }
    ensures { let c = place.now.connection in result ≡ dues_instructed (answered_at c.stage) c.grant.previous tick.at i.now c.dues }
{
    let c = &place.connection;
    let granted = Dues {
        tariff: i.switch.map(|seconds| switch_at(tick, seconds)),
        advice: c.dues.advice,
        sound: None,
        end: None,
        limit: None,
    };
    let start = c.grant.previous.map_or(
        tick,
        |at|
            requires { at ≤ last_tick }
        { Tick { at } },
    );
    let period = &open_period(tick, i);
    match c.stage {
        Stage::Consultation | Stage::Waiting => granted,
        Stage::Answered(_) => Started { start, period }.dues(&granted),
    }
}

// An answer starts the open period, if there is one.
pub(crate) fn answer_dues(tick: Tick, place: &Place) -> Dues
    ensures { let c = place.now.connection in result ≡ dues_answered tick.at (option_map terms_of c.grant.period) c.dues }
{
    let c = &place.connection;
    match &c.grant.period {
        Some(period) => Started {
            start: tick,
            period,
        }
        .dues(&c.dues),
        None => c.dues,
    }
}

// Advice: the second set's switch is due.
pub(crate) fn advise_dues(tick: Tick, switched: &Option<SecondSet>, d: &Dues) -> Dues
    requires { second_fits switched.now ≡ true }
    ensures { result ≡ dues_advised tick.at switched.now d.now }
{
    Dues {
        advice: switched.as_ref().map(|s| switch_at(tick, s.seconds)),
        ..*d
    }
}
