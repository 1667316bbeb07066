// The names of opcodes, registers and sampler settings.
ghost use Rattle.std.specs.Prelude.{true, ◌≡◌, ◌≤◌, length};
ghost use Rattle.layout.specs.Opcodes.{is_listed};
ghost use Rattle.listing.specs.Names.{opcode_name, register_name, dimension_name, mipmap_name, wrap_name, filter_name};
ghost use Rattle.listing.specs.computed.Writers.{RoomFor, Writes, stage_number};

use crate::stage::Stage;
use crate::text::Writer;

// By opcode, three letters each, from mov, 00, to sne, 2d; dots where no opcode is listed. A table of letters says this in one
// line, where a match of the 40 names has a line for each.
const OPCODES: [u8; 138] =
    *b"movaddsubmuldivrcpminmaxfrcsqtrsqpowlogexpnrmsincoscrsdp3dp4absnegsatm33m44m34ddxddyifeineifgiflelseif...............kiltexsgeslt...seqsne";

impl Writer<'_> {
    #[inline(always)]
    pub(crate) fn opcode(&mut self, opcode: u32)
        requires room { RoomFor 3 self.old }
        requires listed { is_listed opcode ≡ true }
        ensures { Writes (opcode_name opcode) 3 self.old self.new }
    {
        let from = 3 * opcode as usize;
        self.bytes(&OPCODES[from..from + 3]);
    }

    #[inline(always)]
    pub(crate) fn register_name(&mut self, stage: Stage, kind: u8)
        requires { RoomFor 2 self.old }
        ensures { Writes (register_name (stage_number stage) kind) 2 self.old self.new }
    {
        self.bytes(register_name(stage, kind));
    }
}

// No type above 6 has a name.
#[inline(always)]
fn register_name(stage: Stage, kind: u8) -> &'static [u8]
    ensures name { result.now ≡ register_name (stage_number stage) kind }
    ensures short { length result.now ≤ 2 }
{
    match (kind, stage) {
        (0, _) => b"va",
        (1, Stage::Vertex) => b"vc",
        (1, Stage::Fragment) => b"fc",
        (2, Stage::Vertex) => b"vt",
        (2, Stage::Fragment) => b"ft",
        (3, Stage::Vertex) => b"op",
        (3, Stage::Fragment) => b"oc",
        (4, _) => b"v",
        (5, _) => b"fs",
        (6, _) => b"od",
        _ => b"",
    }
}

// A sampler's settings: lists of the format, each a function of its own name and bound.
pub(crate) fn dimension_name(dimension: u8) -> &'static [u8]
    ensures name { result.now ≡ dimension_name dimension }
    ensures short { length result.now ≤ 4 }
{
    if dimension == 0 { b"2d" } else { b"cube" }
}

pub(crate) fn mipmap_name(mipmap: u8) -> &'static [u8]
    ensures name { result.now ≡ mipmap_name mipmap }
    ensures short { length result.now ≤ 10 }
{
    match mipmap {
        0 => b"mipnone",
        1 => b"mipnearest",
        _ => b"miplinear",
    }
}

pub(crate) fn wrap_name(wrap: u8) -> &'static [u8]
    ensures name { result.now ≡ wrap_name wrap }
    ensures short { length result.now ≤ 6 }
{
    if wrap == 0 { b"clamp" } else { b"repeat" }
}

pub(crate) fn filter_name(filter: u8) -> &'static [u8]
    ensures name { result.now ≡ filter_name filter }
    ensures short { length result.now ≤ 7 }
{
    if filter == 0 { b"nearest" } else { b"linear" }
}
