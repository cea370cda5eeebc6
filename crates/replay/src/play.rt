// A script read, and played through a whole run over the link that it asks for.
ghost use Rattle.std.specs.Prelude.{length};

use crate::script::{Line, Pile, Ring, line_of};
use engine::{CallRecord, run};
use frame::FRAME;
use frame_ring::FrameRing;
use link::Link;
use report::{Refusal, Report};
use reserve::Reserve;
use ring::Fifo;
use rules::Reply;
use std::alloc::{AllocError, Global};

// The settings and the calls of a script, up to a line that is not understood.
#[derive(Drop)]
pub struct Script {
    pub wait: Option<u32>,
    pub pile: Option<Pile>,
    // what each line with a call came to, a byte each, and the records of those that have one
    pub entries: Vec<Entry>,
    pub records: Vec<CallRecord>,
    pub bad_line: Option<u64>,
}

// What became of a line with a call: it has a record, or its burst list can't be made.
#[derive(Clone, Copy, PartialEq, Eq, Debug)]
pub enum Entry {
    Recorded,
    NoBursts,
}

// What a script's calls came to: each record with its reply, and the reports that still wait at the end.
#[derive(Drop)]
pub struct Played {
    pub script: Script,
    pub left: Vec<Report>,
}

impl Played {
    // Plays the calls over a link, and takes out the reports that wait at the end.
    fn run_over<L: Link + Drop>(&mut self, wait: u32, link: L) -> Result<(), AllocError> {
        let mut link = run(wait, link, &mut self.script.records);
        while let Ok(report) = link.take() {
            self.left.push(report)?;
        }
        Ok(())
    }

    // Each reserve makes the link another type, so that the number of them can't be a value: a branch each.
    fn run_under<L: Link + Drop>(
        &mut self,
        wait: u32,
        link: L,
        reserves: usize,
    ) -> Result<(), AllocError> {
        match reserves {
            0 => self.run_over(wait, link),
            1 => self.run_over(wait, Reserve::new(link)),
            _ => self.run_over(wait, Reserve::new(Reserve::new(link))),
        }
    }
}

const USUAL_WAIT: u32 = 50;

const USUAL_PILE: Pile = Pile {
    ring: Ring::Records,
    places: 16,
    reserves: 0,
};

// Each setting may stand once, before the calls.
pub(crate) fn read_script(heap: Global, text: &[u8]) -> Result<Script, AllocError> {
    let mut script = Script {
        wait: None,
        pile: None,
        entries: Vec::new(heap),
        records: Vec::new(heap),
        bad_line: None,
    };
    for (number, line) in (1u64..).zip(text.split(|b| *b == b'\n')) {
        let no_call = script.entries.is_empty();
        match line_of(line) {
            Some(Line::Blank) => {}
            Some(Line::Wait(wait)) if no_call && script.wait.is_none() => script.wait = Some(wait),
            Some(Line::Link(pile)) if no_call && script.pile.is_none() => script.pile = Some(pile),
            Some(Line::Call(Ok(call))) => {
                script.entries.push(Entry::Recorded)?;
                script.records.push(CallRecord {
                    call,
                    // not played yet: `run` writes every reply before it is read
                    reply: Reply::Refused(Refusal::Untimely),
                })?;
            }
            Some(Line::Call(Err(_))) => script.entries.push(Entry::NoBursts)?,
            Some(Line::Wait(_) | Line::Link(_)) | None => {
                script.bad_line = Some(number);
                break;
            }
        }
    }
    Ok(script)
}

// Plays a script's calls over the link that it asks for.
pub(crate) fn play(heap: Global, script: Script) -> Result<Played, AllocError> {
    let wait = script.wait.unwrap_or(USUAL_WAIT);
    let Pile {
        ring,
        places,
        reserves,
    } = script.pile.unwrap_or(USUAL_PILE);
    let mut played = Played {
        script,
        left: Vec::new(heap),
    };
    match ring {
        Ring::Records => {
            let mut memory = vec![in heap; Report::BLANK; places]?;
            played.run_under(wait, Fifo::new(&mut memory), reserves)?;
        }
        Ring::Frames => {
            let mut bytes = vec![in heap; 0u8; places.saturating_mul(FRAME)]?;
            played.run_under(wait, FrameRing::new(&mut bytes), reserves)?;
        }
    }
    Ok(played)
}
