// Fills piles to the last place, empties them, and prints a line for each: how many reports went, the number that
// the next one was refused with, and the numbers of the reports in the order in which they came out.
#![tactic(auto)]

use frame_ring::FrameRing;
use link::Link;
use piles::{send_all, take_all};
use report::{Address, Elapsed, Report, Standing};
use reserve::Reserve;
use ring::Fifo;
use std::{array, io};

// More reports than any of the piles has places.
const ROW: usize = 20;

// A sample report. The tests of links have one alike, and a row of them: a crate of its own for so few lines would be no plainer.
fn numbered(number: u16) -> Report {
    Report {
        address: Address { kind: 1, number: 2 },
        number,
        party: 1,
        tick: 1_000,
        standing: Standing::Active,
        elapsed: Elapsed::Plain(600),
    }
}

// Fills a pile and empties it into a lent place, and prints the line.
fn show<L: Link>(
    rt: HostRuntime,
    name: &str,
    link: &mut L,
    place: &mut [Report],
) -> io::Result<()> {
    let row: [Report; ROW] = array::from_fn(|i| numbered(i as u16 + 1));
    match send_all(link, &row) {
        Ok(()) => print!(rt; "{name}: all {ROW} sent; taken")?,
        Err(unsent) => {
            let number = unsent.refusal.number();
            print!(rt;
                "{name}: {} sent, then refused with {number}; taken",
                unsent.count
            )?;
        }
    }
    let taken = take_all(link, place);
    for report in &place[..taken] {
        print!(rt; " {}", report.number)?;
    }
    println!(rt)
}

fn main(rt: HostRuntime) -> io::Result<()> {
    let mut place = [numbered(1); ROW];
    let mut memory = [numbered(1); 2];
    show(rt, "records", &mut Fifo::new(&mut memory), &mut place)?;
    show(
        rt,
        "records, one reserve",
        &mut Reserve::new(Fifo::new(&mut memory)),
        &mut place,
    )?;
    show(
        rt,
        "records, two reserves",
        &mut Reserve::new(Reserve::new(Fifo::new(&mut memory))),
        &mut place,
    )?;
    let mut bytes = [0u8; 48];
    show(rt, "frames", &mut FrameRing::new(&mut bytes), &mut place)?;
    show(
        rt,
        "frames, one reserve",
        &mut Reserve::new(FrameRing::new(&mut bytes)),
        &mut place,
    )?;
    show(
        rt,
        "frames, two reserves",
        &mut Reserve::new(Reserve::new(FrameRing::new(&mut bytes))),
        &mut place,
    )
}
