// A line for each frame, up to the first fault.
ghost use Rattle.std.specs.Prelude.{◌≡◌, ℕ, ◌+◌, ◌*◌, ◌/◌, ◌≤◌, false, length};
ghost use Rattle.frame.specs.Frame.{frame_size};
ghost use Rattle.account.specs.Rule.{read_one};
ghost use Rattle.lines.specs.Line.{line_size};
ghost use Rattle.lines.specs.Page.{room, SameLender};
ghost use Rattle.stream.specs.Told.{Progress, Told, after_rule, tell_one, tell_frames, tell_end, frames_in, after_frames, unless_ended, at_start};
ghost use Rattle.stream.specs.Cuts.{CutAnyhow};
ghost use Rattle.stream.specs.Stands.{Blank, Stands, PutsOn, Tells, Keeps};

use crate::tally::Tally;
use account::{closed_records, read_one};
use frame::{FRAME, read};
use lines::{LINE, Layer, Page};
use report::Report;

impl Tally {
    // `new` promises what follows from these values, and a proof about a call's result is shorter than one about a literal.
    fn blank() -> Tally
        ensures { Blank result }
    {
        Tally {
            records: closed_records(),
            place: 0,
            ended: false,
        }
    }

    // At the start of an input. What is told of the input from here on does not depend on how it is
    // cut into blocks.
    pub fn new() -> Tally
        ensures blank { Blank result }
        ensures stands { Stands result at_start }
        ensures cuts { CutAnyhow }
    {
        Tally::blank()
    }

    // Tells of a report, on a page where a longest line fits.
    fn tell_report(&mut self, report: &Report, page: &mut Page)
        requires { line_size ≤ room page.old }
        ensures lender { SameLender page.old page.new }
        ensures few { room page.old ≤ room page.new + line_size }
        ensures told { (p : Progress) → Stands self.old p → PutsOn (after_rule report.now p (read_one report.now p.book)) page.old page.new self.new }
    {
        match read_one(&mut self.records, report) {
            Ok(reading) => {
                self.place = self.place.saturating_add(FRAME as u64);
                page.put_reading(report.number, &reading).unwrap();
            }
            Err(refusal) => {
                self.ended = true;
                page.put_fault(Layer::Account, refusal, self.place).unwrap();
            }
        }
    }

    // Tells of a frame, on a page where a longest line fits.
    fn tell_frame(&mut self, frame: &[u8], page: &mut Page)
        requires { line_size ≤ room page.old }
        ensures lender { SameLender page.old page.new }
        ensures few { room page.old ≤ room page.new + line_size }
        ensures told { (p : Progress) → Stands self.old p → PutsOn (tell_one frame.now p) page.old page.new self.new }
    {
        match read(frame) {
            Ok((report, _)) => self.tell_report(&report, page),
            Err(refusal) => {
                self.ended = true;
                let wrong = refusal.place().unwrap() as u64;
                let place = self.place.saturating_add(wrong);
                page.put_fault(Layer::Frame, refusal, place).unwrap();
            }
        }
    }

    // Tells of the whole frames of a block one after another, up to a fault.
    fn tell_frames(&mut self, block: &[u8], page: &mut Page)
        requires { frames_in block.now * line_size ≤ room page.old }
        ensures lender { SameLender page.old page.new }
        ensures told { (p : Progress) → Stands self.old p → PutsOn (unless_ended (tell_frames block.now) p) page.old page.new self.new }
    {
        for frame in block.chunks_exact(FRAME) {
            if self.ended {
                break;
            }
            self.tell_frame(frame, page);
        }
    }

    // Writes what is told of the whole frames that a block begins with into the front of a place,
    // and returns where the text ends; or nothing where the place is too short for so many lines.
    // A length, since the public call keeps its form, and a slice handed out would hold the caller's buffer.
    pub fn tell_block(&mut self, block: &[u8], out: &mut [u8]) -> Option<usize>
        ensures { Tells (frames_in block.now) (unless_ended (tell_frames block.now)) self.old out.old result out.new self.new }
    {
        if out.len() / LINE < block.len() / FRAME {
            return None;
        }
        let mut page = Page::new(out);
        self.tell_frames(block, &mut page);
        Some(page.len())
    }

    // Writes what is told of the bytes that the input ends with, after its whole frames, and returns
    // a length, or nothing where no longest line fits, as `tell_block` does.
    pub fn tell_rest(&mut self, rest: &[u8], out: &mut [u8]) -> Option<usize>
        ensures { Tells 1 (unless_ended (tell_end rest.now)) self.old out.old result out.new self.new }
    {
        if out.len() < LINE {
            return None;
        }
        if rest.is_empty() || self.ended {
            return Some(0);
        }
        let mut page = Page::new(out);
        self.tell_frame(rest, &mut page);
        Some(page.len())
    }
}

// How many of so many bytes make up whole frames.
fn whole_frames(bytes: usize) -> usize
    ensures is { result ≡ bytes / frame_size * frame_size }
    ensures few { result ≤ bytes }
{
    bytes / FRAME * FRAME
}

// Moves the bytes after the whole frames among the first `filled` of a buffer to its front, and
// returns how many they are. No more bytes are filled than the buffer has. A public call keeps its form: a buffer, and how much of it is filled.
pub fn keep_rest(buffer: &mut [u8], filled: usize) -> usize
    ensures { Keeps buffer.old filled result buffer.new }
{
    let filled = filled.min(buffer.len());
    let whole = whole_frames(filled);
    buffer.copy_within(whole..filled, 0);
    filled - whole
}
