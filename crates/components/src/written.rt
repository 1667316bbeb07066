// Sets of written components of temporary registers.
ghost use Rattle.std.specs.Prelude.{cond, ◌≡◌, ◌*◌, ◌%◌, ◌^◌};
ghost use Rattle.components.specs.computed.Written.{half_of, join_of, mark_of, lacks_row, lacks_of};

// Four bits for each register, its lowest for x: registers 0 to 15 in the low half, 16 to 31 in the high one.
#[derive(Clone, Copy, Debug, PartialEq, Eq)]
pub struct Written {
    pub low: u64,
    pub high: u64,
}

impl Written {
    // Nothing is written.
    pub const EMPTY: Written = Written { low: 0, high: 0 };

    // The same set, copied half by half. Copied at once, as sixteen bytes, it would often be read back before its two halves, which are stored
    // one by one, have arrived, and the processor would wait: measured, so this takes the place of a plain copy where the check's loop stores.
    pub fn by_halves(self) -> Written
        ensures { result ≡ self }
    {
        Written {
            low: self.low,
            high: self.high,
        }
    }

    // What both sets have.
    pub fn join(self, other: Written) -> Written
        ensures { result ≡ join_of self other }
    {
        Written {
            low: self.low & other.low,
            high: self.high & other.high,
        }
    }

    // The set with the components of a register's mask added. A register above 31 is not kept: no edition has one.
    #[tactic(auto, using(crate::proofs::WrittenLaws::marks))]
    pub fn mark(self, register: u16, mask: u8) -> Written
        ensures { result ≡ mark_of self register mask }
    {
        let register = register as u32;
        let bits = placed(register, mask);
        Written {
            low: self.low | only(register < 16, bits),
            high: self.high | only((16 <= register) & (register < 32), bits),
        }
    }

    // Whether one of `rows` registers, from `register` on, lacks one of the components. By `any` the check takes 2 instructions a token more.
    pub fn lacks(self, register: u16, rows: u8, components: u8) -> bool
        ensures { result ≡ lacks_of self register rows components }
    {
        let first = register as u32;
        let end = first + rows as u32;
        for row in first..end {
            if self.lacks_row(row, components) {
                return true;
            }
        }
        false
    }

    // Whether a register lacks one of the components.
    fn lacks_row(self, register: u32, components: u8) -> bool
        ensures { result ≡ lacks_row self register components }
    {
        let asked = (components % 16) as u64;
        let there = self.half_of(register) >> (register % 16 * 4);
        (asked & there) != asked
    }

    // The half that a register is in; one above 31 has nothing written.
    fn half_of(self, register: u32) -> u64
        ensures { result ≡ half_of self register }
    {
        match register {
            0..=15 => self.low,
            16..=31 => self.high,
            _ => 0,
        }
    }
}

// The bits of a mask, where the half that a register is in has the register's.
fn placed(register: u32, mask: u8) -> u64
    ensures { result ≡ mask % 16 * 2 ^ (register % 16 * 4) }
{
    ((mask % 16) as u64) << (register % 16 * 4)
}

// Bits, or none. The processor chooses here and guesses nothing: registers are written in no order that it could guess.
fn only(chosen: bool, bits: u64) -> u64
    ensures { result ≡ cond chosen bits 0 }
{
    if chosen { bits } else { 0 }
}
