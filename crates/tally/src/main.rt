// Reads report frames on standard input and prints a line for each, up to the first fault.
#![tactic(auto)]

ghost use Rattle.std.specs.Prelude.{ℕ, ◌≤◌, vec_len};

use anyhow::Context;
use frame::FRAME;
use lines::LINE;
use std::alloc::{AllocError, Global};
use std::io::{Read, Write};
use stream::{Tally, keep_rest};

// The frames that one read can bring, about as many as a pipe holds.
const FRAMES: usize = 2_730;

const BLOCK: usize = FRAMES * FRAME;

const PAGE: usize = FRAMES * LINE;

// An input that is told of on an output. The first `left` bytes of the block are left over from
// what was read: the struct keeps both, and memory is made once, where a Vec that grows and shrinks would be filled anew.
#[derive(Drop)]
struct Session<R, W> {
    input: R,
    output: W,
    tally: Tally,
    block: Vec<u8>,
    left: usize,
    page: Vec<u8>,
    ghost inside: { left ≤ vec_len block },
}

impl<R: Read + Drop, W: Write + Drop> Session<R, W> {
    fn new(alloc: Global, input: R, output: W) -> Result<Session<R, W>, AllocError> {
        Ok(Session {
            input,
            output,
            tally: Tally::new(),
            block: vec![in alloc; 0u8; BLOCK]?,
            left: 0,
            page: vec![in alloc; 0u8; PAGE]?,
        })
    }

    // Reads once behind the bytes that are left over, and prints what can be told. Whether the
    // input goes on: it has not ended, and no fault ended it.
    fn pass_on(&mut self) -> anyhow::Result<bool> {
        let count = self.input.read(&mut self.block[self.left..])?;
        if count == 0 {
            self.print_rest()?;
            return Ok(false);
        }
        let filled = self.left + count;
        let end = self
            .tally
            .tell_block(&self.block[0..filled], &mut self.page)
            .context("no room for the lines")?;
        self.output.write_all(&self.page[0..end])?;
        self.left = keep_rest(&mut self.block, filled);
        Ok(!self.tally.has_ended())
    }

    // Prints what is told of the bytes that the input ends with.
    fn print_rest(&mut self) -> anyhow::Result<()> {
        let end = self
            .tally
            .tell_rest(&self.block[0..self.left], &mut self.page)
            .context("no room for a line")?;
        self.output.write_all(&self.page[0..end])?;
        Ok(())
    }
}

fn run(rt: &HostRuntime) -> anyhow::Result<()> {
    let mut session = Session::new(rt.alloc(), rt.stdin(), rt.stdout())?;
    // A loop with no bound takes a handle, `Wait`, and the project allows none (it has no file HANDLES), so this counts.
    for _ in 0..u64::MAX {
        if !session.pass_on()? {
            break;
        }
    }
    Ok(())
}

fn main(rt: HostRuntime) -> anyhow::Result<()> {
    run(&rt)
}
