// The words of a line, and the numbers and addresses that they may be.
ghost use Rattle.std.specs.Prelude.{length};
ghost use Rattle.std.specs.Iterator.{at_most};

use report::Address;
use std::str::FromStr;
use std::{fmt, str};

// What parts words, in a run of any length.
const BLANKS: [char; 2] = [' ', '\t'];

// The words of a line that are still to be read.
#[derive(Clone, Copy, PartialEq, Eq, Debug)]
pub struct Words<'a> {
    rest: &'a str,
}

impl<'a> Iterator for Words<'a> {
    type Item = &'a str;

    ghost remaining = { λ s. at_most (length s.rest.now) };

    fn next(&mut self) -> Option<&'a str> {
        let rest = self.rest.trim_start_matches(BLANKS);
        if rest.is_empty() {
            return None;
        }
        let (word, rest) = rest.split_once(BLANKS).unwrap_or((rest, ""));
        self.rest = rest;
        Some(word)
    }
}

impl<'a> Words<'a> {
    // The words before a line's comment, if they are text.
    pub(crate) fn of(line: &'a [u8]) -> Option<Words<'a>> {
        let before_comment = line.split(|b| *b == b'#').next()?;
        let rest = str::from_utf8(before_comment).ok()?;
        Some(Words { rest })
    }

    // Takes the next word if it is this one. Another word is not read to its end.
    pub(crate) fn takes(&mut self, word: &str) -> bool {
        let Some(behind) = self.rest.trim_start_matches(BLANKS).strip_prefix(word) else {
            return false;
        };
        let is_whole = behind.is_empty() || behind.starts_with(BLANKS);
        if is_whole {
            self.rest = behind;
        }
        is_whole
    }

    pub(crate) fn number<T: FromStr>(&mut self) -> Option<T>
    where
        T::Err: Drop,
    {
        digits(self.next()?)
    }

    // The number after this word.
    pub(crate) fn number_after<T: FromStr>(&mut self, word: &str) -> Option<T>
    where
        T::Err: Drop,
    {
        if self.takes(word) {
            self.number()
        } else {
            None
        }
    }

    // A kind, a point and a number.
    pub(crate) fn address(&mut self) -> Option<Address> {
        let (kind, number) = self.next()?.split_once('.')?;
        Some(Address {
            kind: digits(kind)?,
            number: digits(number)?,
        })
    }
}

// A decimal number that fits its type. `parse` alone would take a sign.
fn digits<T: FromStr>(word: &str) -> Option<T>
where
    T::Err: Drop,
{
    if word.bytes().all(|b| b.is_ascii_digit()) {
        word.parse().ok()
    } else {
        None
    }
}

// The words, a space apart.
impl fmt::Display for Words<'_> {
    fn fmt<W: fmt::Write>(&self, f: &mut fmt::Formatter<W>) -> fmt::Result {
        for (n, word) in self.enumerate() {
            if n > 0 {
                f.write_str(" ")?;
            }
            f.write_str(word)?;
        }
        Ok(())
    }
}
