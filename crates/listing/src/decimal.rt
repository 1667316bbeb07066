// Numbers in decimal, without leading zeros.
ghost use Rattle.std.specs.Prelude.{◌^◌, ◌≤◌, ◌<◌};
ghost use Rattle.listing.specs.Decimal.{decimal, signed_decimal};
ghost use Rattle.listing.specs.computed.Writers.{RoomFor, Writes, digit_at};

use crate::text::Writer;

impl Writer<'_> {
    // A number of 0 to 65535, which has at most five digits: that of each unit in turn, from the largest unit that the number reaches.
    // A line for each unit: a loop over them is as long and needs an invariant.
    #[inline(always)]
    pub(crate) fn decimal(&mut self, n: u16)
        requires { RoomFor 5 self.old }
        ensures { Writes (decimal n) 5 self.old self.new }
    {
        self.digit(n, 10000);
        self.digit(n, 1000);
        self.digit(n, 100);
        self.digit(n, 10);
        self.byte(b'0' + (n % 10) as u8);
    }

    // The digit that counts a unit, a power of ten, or nothing where the number is smaller.
    #[inline(always)]
    fn digit(&mut self, n: u16, unit: u16)
        requires room { RoomFor 1 self.old }
        requires unit { 1 ≤ unit }
        ensures { Writes (digit_at n unit) 1 self.old self.new }
    {
        self.when(unit <= n, b'0' + (n / unit % 10) as u8);
    }

    // Any number of at most `most` digits: those of its tenth, then the last one. Only a token's number in a refusal may be so large.
    // It calls itself, since the last digit is found first: a loop needs a buffer for the digits, or a falling power of ten and an invariant.
    pub(crate) fn long(&mut self, n: usize, most: usize)
        requires n_bound { n < 10 ^ most }
        requires room { RoomFor most self.old }
        requires le_most { 1 ≤ most }
        ensures { Writes (decimal n) most self.old self.new }
    {
        if n < 10 {
            return self.byte(b'0' + n as u8);
        }
        self.long(n / 10, most - 1);
        self.byte(b'0' + (n % 10) as u8);
    }

    #[inline(always)]
    pub(crate) fn signed(&mut self, value: i8)
        requires { RoomFor 6 self.old }
        ensures { Writes (signed_decimal value) 6 self.old self.new }
    {
        self.when(value < 0, b'-');
        self.decimal(u16::from(value.unsigned_abs()));
    }
}
