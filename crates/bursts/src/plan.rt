// How long a burst list sounds, and the plan of its tones.
ghost use Rattle.std.specs.Prelude.{◌≡◌, ◌<◌, ◌≤◌, length};
ghost use Rattle.bursts.specs.Plan.{burst_length, sound_length, tone_at, tones_of, Planned};

use crate::list::BurstList;
use crate::make::BurstNumbers;
use report::Refusal;

// A tone: its start, in ticks from the sound's start, and how many ticks it lasts.
#[derive(Clone, Copy, PartialEq, Eq, Debug)]
pub struct Tone {
    pub start: u32,
    pub length: u8,
}

impl BurstList {
    // The ticks that one burst lasts.
    fn burst_length(&self) -> u32
        ensures value { result ≡ burst_length self.now }
        ensures small { result ≤ 100 }
    {
        let BurstNumbers {
            tones,
            tone,
            pause,
            ..
        } = self.numbers;
        tones as u32 * tone as u32 + (tones as u32 - 1) * pause as u32
    }

    // The ticks that all bursts last, with the gaps between them.
    pub fn length(&self) -> u32
        ensures { result ≡ sound_length self.now }
    {
        let BurstNumbers { bursts, gap, .. } = self.numbers;
        bursts as u32 * self.burst_length() + (bursts as u32 - 1) * gap as u32
    }

    // The tone `k` of the burst `j`, both counted from 0.
    fn tone_at(&self, j: usize, k: usize) -> Tone
        requires burst { j < self.now.numbers.bursts }
        requires tone { k < self.now.numbers.tones }
        ensures { result ≡ tone_at self.now j k }
    {
        let BurstNumbers {
            gap,
            tone,
            pause,
            ..
        } = self.numbers;
        let every_burst = self.burst_length() + gap as u32;
        let every_tone = tone as u32 + pause as u32;
        Tone {
            start: j as u32 * every_burst + k as u32 * every_tone,
            length: tone,
        }
    }

    // Writes the tones of the burst `j` into `burst`, which has a place for each.
    fn write_burst(&self, j: usize, burst: &mut [Tone])
        requires burst { j < self.now.numbers.bursts }
        requires places { length burst.old ≡ self.now.numbers.tones }
        ensures { burst.new ≡ tones_of self.now j self.now.numbers.tones }
    {
        for (k, tone) in burst.iter_mut().enumerate() {
            *tone = self.tone_at(j, k);
        }
    }

    // Writes each tone's start and length into the front of `place`, and says how many tones there are: a count, as its public
    // contract has it.
    pub fn tone_plan(&self, place: &mut [Tone]) -> Result<usize, Refusal>
        ensures { Planned self.now place.old place.new result }
    {
        let tones = self.numbers.tones as usize;
        let count = self.numbers.bursts as usize * tones;
        if place.len() < count {
            return Err(Refusal::PlaceTooShort);
        }
        let plan = &mut place[..count];
        for j in 0..self.numbers.bursts as usize {
            let at = j * tones;
            self.write_burst(j, &mut plan[at..at + tones]);
        }
        Ok(count)
    }
}
