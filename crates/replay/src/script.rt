// The lines of a script: settings, calls, or nothing. A reader answers nothing where a line is not understood.
use crate::words::Words;
use bursts::{BurstList, BurstNumbers};
use report::Refusal;
use rules::limits::E_VALUES;
use rules::{Advice, Call, EValues, Instruction, Operation, SecondSet};

// What a link's ring holds.
#[derive(Clone, Copy, PartialEq, Eq, Debug)]
pub enum Ring {
    Records,
    Frames,
}

// The link that a script asks for: a ring of so many places, under so many reserves.
#[derive(Clone, Copy, PartialEq, Eq, Debug)]
pub struct Pile {
    pub ring: Ring,
    pub places: usize,
    pub reserves: usize,
}

// What a line says: a setting, a call or the refusal of a burst list that can't be made, or nothing.
#[derive(Clone, Copy, PartialEq, Eq, Debug)]
pub enum Line {
    Blank,
    Wait(u32),
    Link(Pile),
    Call(Result<Call, Refusal>),
}

const MOST_PLACES: usize = 64;

const MOST_RESERVES: usize = 2;

pub(crate) fn line_of(line: &[u8]) -> Option<Line> {
    let mut words = Words::of(line)?;
    let Some(first) = words.next() else {
        return Some(Line::Blank);
    };
    let said = match first {
        "wait" => Line::Wait(words.number()?),
        "link" => Line::Link(read_pile(&mut words)?),
        _ => Line::Call(read_call(first, &mut words)?),
    };
    words.next().is_none().then_some(said)
}

// Whether the words of a line that is understood are a call.
pub(crate) fn is_call(mut words: Words) -> bool {
    !matches!(words.next(), None | Some("wait" | "link"))
}

fn read_pile(words: &mut Words) -> Option<Pile> {
    let ring = match words.next()? {
        "records" => Ring::Records,
        "frames" => Ring::Frames,
        _ => return None,
    };
    let places = words.number()?;
    if places > MOST_PLACES {
        return None;
    }
    let reserves = (0..MOST_RESERVES)
        .take_while(|_| words.takes("reserve"))
        .count();
    Some(Pile {
        ring,
        places,
        reserves,
    })
}

fn read_call(first: &str, words: &mut Words) -> Option<Result<Call, Refusal>> {
    match first {
        "fire" => Some(Ok(Call::Fire(words.number()?))),
        "take" => Some(Ok(Call::Take)),
        _ => {
            let tick = words.number()?;
            let address = words.address()?;
            let operation = read_operation(first, words)?;
            Some(operation.map(|operation| Call::On {
                tick,
                address,
                operation,
            }))
        }
    }
}

fn read_operation(first: &str, words: &mut Words) -> Option<Result<Operation, Refusal>> {
    let operation = match first {
        "set-up" => Operation::SetUp,
        "continue" => Operation::Continue,
        "bar" => Operation::Bar,
        "instruct" => return read_instruction(words),
        "advise" => Operation::Advise(read_advice(words)?),
        "answer" => Operation::Answer,
        "disconnect" => Operation::Disconnect,
        "confirm" => Operation::Confirm(words.number()?),
        "repeat" => Operation::Repeat,
        _ => return None,
    };
    Some(Ok(operation))
}

fn read_instruction(words: &mut Words) -> Option<Result<Operation, Refusal>> {
    let maximum = words.number_after("max")?;
    let party = words.number_after("party")?;
    let release = words.takes("release");
    let switch = if words.takes("switch") {
        Some(words.number()?)
    } else {
        None
    };
    let bursts = if words.takes("bursts") {
        Some(read_burst_numbers(words)?)
    } else {
        None
    };
    let made = bursts.map(BurstList::new).transpose();
    Some(made.map(|bursts| {
        Operation::Instruct(Instruction {
            maximum,
            release,
            party,
            switch,
            bursts,
        })
    }))
}

fn read_burst_numbers(words: &mut Words) -> Option<BurstNumbers> {
    Some(BurstNumbers {
        warning: read_or_largest(words, u16::MAX)?,
        bursts: read_or_largest(words, u8::MAX)?,
        tones: read_or_largest(words, u8::MAX)?,
        gap: read_or_largest(words, u16::MAX)?,
        tone: read_or_largest(words, u8::MAX)?,
        pause: read_or_largest(words, u8::MAX)?,
    })
}

// A number that fits 32 bits but not its field is out of the list's ranges, like the largest of the field.
fn read_or_largest<T: TryFrom<u32> + Drop>(words: &mut Words, largest: T) -> Option<T>
where
    T::Error: Drop,
{
    let number: u32 = words.number()?;
    Some(T::try_from(number).unwrap_or(largest))
}

fn read_advice(words: &mut Words) -> Option<Advice> {
    if !words.takes("e") {
        return None;
    }
    let first = read_e_values(words)?;
    let second = if words.takes("then") {
        Some(SecondSet {
            set: read_e_values(words)?,
            seconds: words.number_after("after")?,
        })
    } else {
        None
    };
    Some(Advice { first, second })
}

// Numbers, with a dash for each that is absent.
fn read_e_values(words: &mut Words) -> Option<EValues> {
    let mut values = [None; E_VALUES];
    for value in values.iter_mut() {
        if !words.takes("-") {
            *value = Some(words.number()?);
        }
    }
    Some(EValues { values })
}
