// Numbers as decimal digits, from the first to the last: by cases of their length and two digits at a time, since a program
// that prints accounts spends much of its time on digits. The kit's `itoa` was tried and was slower: `tally` took 156 ms against
// 115 ms. Two, four and eight digits are functions of their own, since each bound is part of its contract. `put_decimal`
// and `put_long_decimal` are two, since 32 bits are faster.
ghost use Rattle.std.specs.Prelude.{◌≡◌, ◌^◌, ◌<◌, ◌≤◌, length, decimal};
ghost use Rattle.lines.specs.Page.{room, HasRoom, Adds};
ghost use Rattle.lines.specs.Digits.{two_digits, four_digits, eight_digits, decimal_size, long_size};

use crate::page::Page;

// The two digits of each number below a hundred.
static PAIRS: [u8; 200] =
    *b"00010203040506070809101112131415161718192021222324252627282930313233343536373839404142434445464748495051525354555657585960616263646566676869707172737475767778798081828384858687888990919293949596979899";

#[tactic(auto, using(crate::proofs::Puts::puts, crate::proofs::Decimals::decimals))]
impl Page<'_> {
    #[inline(always)]
    fn put_two_digits(&mut self, n: u32)
        requires small { n < 100 }
        requires room { HasRoom self.old (two_digits n) }
        ensures { Adds self.old (two_digits n) self.new }
    {
        let at = n as usize * 2;
        self.put_text(&[PAIRS[at], PAIRS[at + 1]]);
    }

    #[inline(always)]
    fn put_four_digits(&mut self, n: u32)
        requires small { n < 10 ^ 4 }
        requires room { HasRoom self.old (four_digits n) }
        ensures { Adds self.old (four_digits n) self.new }
    {
        self.put_two_digits(n / 100);
        self.put_two_digits(n % 100);
    }

    #[inline(always)]
    fn put_eight_digits(&mut self, n: u32)
        requires small { n < 10 ^ 8 }
        requires room { HasRoom self.old (eight_digits n) }
        ensures { Adds self.old (eight_digits n) self.new }
    {
        self.put_four_digits(n / 10_000);
        self.put_four_digits(n % 10_000);
    }

    // A number of one or two digits.
    #[inline(always)]
    pub(crate) fn put_up_to_two(&mut self, n: u32)
        requires small { n < 100 }
        requires room { HasRoom self.old (decimal n) }
        ensures { Adds self.old (decimal n) self.new }
    {
        if n < 10 {
            self.put_byte(b'0' + n as u8);
        } else {
            self.put_two_digits(n);
        }
    }

    // A number of up to four digits.
    #[inline(always)]
    fn put_up_to_four(&mut self, n: u32)
        requires small { n < 10 ^ 4 }
        requires room { HasRoom self.old (decimal n) }
        ensures { Adds self.old (decimal n) self.new }
    {
        if n < 100 {
            self.put_up_to_two(n);
        } else {
            self.put_up_to_two(n / 100);
            self.put_two_digits(n % 100);
        }
    }

    // A number of up to eight digits.
    #[inline(always)]
    fn put_up_to_eight(&mut self, n: u32)
        requires small { n < 10 ^ 8 }
        requires room { HasRoom self.old (decimal n) }
        ensures { Adds self.old (decimal n) self.new }
    {
        if n < 10_000 {
            self.put_up_to_four(n);
        } else {
            self.put_up_to_four(n / 10_000);
            self.put_four_digits(n % 10_000);
        }
    }

    #[inline(always)]
    pub(crate) fn put_decimal(&mut self, n: u32)
        requires { decimal_size ≤ room self.old }
        ensures adds { Adds self.old (decimal n) self.new }
        ensures few { length (decimal n) ≤ decimal_size }
    {
        if n < 100_000_000 {
            self.put_up_to_eight(n);
        } else {
            self.put_up_to_two(n / 100_000_000);
            self.put_eight_digits(n % 100_000_000);
        }
    }
    // A number of up to twenty digits.
    pub(crate) fn put_long_decimal(&mut self, n: u64)
        requires { long_size ≤ room self.old }
        ensures adds { Adds self.old (decimal n) self.new }
        ensures few { length (decimal n) ≤ long_size }
    {
        let high = n / 100_000_000;
        let low = (n % 100_000_000) as u32;
        if n < 100_000_000 {
            self.put_up_to_eight(low);
        } else if high < 100_000_000 {
            self.put_up_to_eight(high as u32);
            self.put_eight_digits(low);
        } else {
            self.put_up_to_four((high / 100_000_000) as u32);
            self.put_eight_digits((high % 100_000_000) as u32);
            self.put_eight_digits(low);
        }
    }
}
