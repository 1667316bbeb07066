// A text that grows in a lent buffer. It is a buffer and a place, since nothing is allocated. Items are written by these methods and not by `write!`:
// what is printed by that is promised only where it answers Ok, and with no bound on its length. Each method asks for as many bytes as its item has
// at most.
ghost use Rattle.std.specs.Prelude.{◌≡◌, [], ◌∷◌, ◌+◌, ◌≤◌, length};
ghost use Rattle.listing.specs.Text.{when};
ghost use Rattle.listing.specs.computed.Writers.{Appends, RoomFor, Writes};

// Each method appends an item at `at`. What stands before and after the item stays. Those that a token's line needs are inlined, so that the
// place stays in a register: with calls between them the listing of a token takes a third more instructions.
#[derive(Drop)]
pub(crate) struct Writer<'a> {
    out: &'a mut [u8],
    at: usize,
}

impl<'a> Writer<'a> {
    #[inline(always)]
    pub(crate) fn new(out: &'a mut [u8]) -> Writer<'a>
        ensures same { result.out.ghost_name ≡ out.entry.ghost_name }
        ensures holds { result.out.now ≡ out.old }
        ensures start { result.at ≡ 0 }
    {
        Writer { out, at: 0 }
    }

    // Of a text that began with the buffer.
    #[inline(always)]
    pub(crate) fn length(&self) -> usize
        ensures { result ≡ self.now.at }
    {
        self.at
    }

    #[inline(always)]
    pub(crate) fn byte(&mut self, byte: u8)
        requires { RoomFor 1 self.old }
        ensures { Writes (byte ∷ []) 1 self.old self.new }
    {
        self.out[self.at] = byte;
        self.at += 1;
    }

    // The byte, or nothing where it is not wanted.
    #[inline(always)]
    pub(crate) fn when(&mut self, wanted: bool, byte: u8)
        requires { RoomFor 1 self.old }
        ensures { Writes (when wanted (byte ∷ [])) 1 self.old self.new }
    {
        if wanted {
            self.byte(byte);
        }
    }

    #[inline(always)]
    pub(crate) fn bytes(&mut self, bytes: &[u8])
        requires { RoomFor (length bytes.now) self.old }
        ensures { Writes bytes.now (length bytes.now) self.old self.new }
    {
        for byte in bytes {
            self.byte(*byte);
        }
    }

    // The same for bytes that stand in an array on the stack.
    #[inline(always)]
    pub(crate) fn copied(&mut self, bytes: &[u8])
        requires { RoomFor (length bytes.now) self.old }
        ensures { Writes bytes.now (length bytes.now) self.old self.new }
    {
        self.at = put_bytes(self.out, self.at, bytes);
    }
}

// Not inlined: beside such an array the loop is compiled to a call of memcpy, since the array and the buffer cannot overlap, and in the first
// call the loader takes 3 KB of stack to find memcpy. The buffer and the place are passed by value, so that a writer stays in registers: with a
// method that is not inlined the listing of a token takes an eighth more instructions.
#[inline(never)]
fn put_bytes(out: &mut [u8], at: usize, bytes: &[u8]) -> usize
    requires { at + length bytes.now ≤ length out.old }
    ensures { Appends bytes.now (length bytes.now) at out.old out.new result }
{
    let mut w = Writer { out, at };
    w.bytes(bytes);
    w.at
}
