// Plays a script of calls, one to a line, and prints what each did, then the accounts that the
// reports come to.
#![tactic(auto)]

mod play;
mod say;
mod script;
mod words;

use frame::{FRAME, write};
use lines::LINE;
use play::{Entry, Played, Script, play, read_script};
use report::{Refusal, Report};
use rules::Reply;
use say::Said;
use script::is_call;
use std::io;
use std::io::{BufWriter, Read, Write};
use stream::Tally;
use words::Words;

// Prints each call with its reply, and then the line that is not understood. The words are read again: kept beside the
// records, they would take a seventh of the memory of these.
fn say_calls<W: Write>(out: &mut W, text: &[u8], script: &Script) -> io::Result<()> {
    let mut replies = script.records.iter().map(|record| record.reply);
    let called = text
        .split(|b| *b == b'\n')
        .filter_map(|line| Words::of(line))
        .filter(|words| is_call(*words));
    // by the entries first, so that no line behind the last of them is read again
    for (entry, words) in script.entries.iter().zip(called) {
        let reply = match entry {
            Entry::Recorded => replies.next(),
            Entry::NoBursts => Some(Reply::Refused(Refusal::OutOfRange)),
        };
        if let Some(reply) = reply {
            writeln!(out, "{words}: {}", Said(reply))?;
        }
    }
    if let Some(number) = script.bad_line {
        writeln!(out, "line {number}: not understood")?;
    }
    Ok(())
}

// Prints what `tally` would print for the report.
fn say_account<W: Write>(out: &mut W, tally: &mut Tally, report: &Report) -> io::Result<()> {
    let mut frame = [0u8; FRAME];
    let mut page = [0u8; LINE];
    if write(*report, &mut frame).is_err() || tally.has_ended() {
        return Ok(());
    }
    if let Some(end) = tally.tell_block(&frame, &mut page) {
        out.write_all(b"account ")?;
        out.write_all(&page[..end])?;
    }
    Ok(())
}

// Prints the accounts of the reports taken, then of those that still wait.
fn say_accounts<W: Write>(out: &mut W, played: &Played) -> io::Result<()> {
    let taken = played
        .script
        .records
        .iter()
        .filter_map(|record| match &record.reply {
            Reply::Took(report) => Some(report),
            _ => None,
        });
    let mut tally = Tally::new();
    for report in taken.chain(&played.left) {
        say_account(out, &mut tally, report)?;
    }
    Ok(())
}

fn run(rt: &HostRuntime) -> anyhow::Result<()> {
    let mut text = Vec::new(rt.alloc());
    rt.stdin().read_to_end(&mut text)?;
    let script = read_script(rt.alloc(), &text)?;
    let played = play(rt.alloc(), script)?;
    let mut out = BufWriter::new(rt.alloc(), rt.stdout())?;
    say_calls(&mut out, &text, &played.script)?;
    say_accounts(&mut out, &played)?;
    out.flush()?;
    Ok(())
}

fn main(rt: HostRuntime) -> anyhow::Result<()> {
    run(&rt)
}
