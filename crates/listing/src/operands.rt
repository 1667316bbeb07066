// The operands of a line, each with the space before it. The stage is handed in and is no field of the writer, since the first line has none yet.
ghost use Rattle.listing.specs.Items.{masked_text, direct_text, index_text, indexed_text, sampler_text, destination_text, operand_text};
ghost use Rattle.listing.specs.computed.Writers.{RoomFor, Writes, stage_number, operand_room};

use crate::stage::Stage;
use crate::text::Writer;
use layout::record::{DirectSource, IndexedSource, MaskedRegister, Operand, Sampler};

impl Writer<'_> {
    #[inline(always)]
    pub(crate) fn destination(&mut self, stage: Stage, destination: Option<MaskedRegister>)
        requires { RoomFor 13 self.old }
        ensures { Writes (destination_text (stage_number stage) destination) 13 self.old self.new }
    {
        if let Some(register) = destination {
            self.masked(stage, register);
        }
    }

    #[inline(always)]
    pub(crate) fn operand(&mut self, stage: Stage, operand: Operand)
        requires { RoomFor (operand_room operand) self.old }
        ensures { Writes (operand_text (stage_number stage) operand) (operand_room operand) self.old self.new }
    {
        match operand {
            Operand::Unused => {}
            Operand::Direct(source) => self.direct(stage, source),
            Operand::Indexed(source) => self.indexed(stage, source),
            Operand::Sampler(sampler) => self.sampler(stage, sampler),
        }
    }

    // This and the next, and `sampler`, are three lines each, on records of their own: a trait for them would be longer.
    #[inline(always)]
    fn masked(&mut self, stage: Stage, r: MaskedRegister)
        requires { RoomFor 13 self.old }
        ensures { Writes (masked_text (stage_number stage) r) 13 self.old self.new }
    {
        self.byte(b' ');
        self.register(stage, r.kind, r.number);
        self.mask(r.mask);
    }

    #[inline(always)]
    fn direct(&mut self, stage: Stage, s: DirectSource)
        requires { RoomFor 13 self.old }
        ensures { Writes (direct_text (stage_number stage) s) 13 self.old self.new }
    {
        self.byte(b' ');
        self.register(stage, s.kind, s.number);
        self.swizzle(s.swizzle);
    }

    #[inline(always)]
    fn indexed(&mut self, stage: Stage, s: IndexedSource)
        requires { RoomFor 25 self.old }
        ensures { Writes (indexed_text (stage_number stage) s) 25 self.old self.new }
    {
        self.byte(b' ');
        self.register_name(stage, s.kind);
        self.index(stage, s);
        self.swizzle(s.swizzle);
    }

    // The index register, its component, and the offset, in brackets.
    #[inline(always)]
    fn index(&mut self, stage: Stage, s: IndexedSource)
        requires { RoomFor 17 self.old }
        ensures { Writes (index_text (stage_number stage) s) 17 self.old self.new }
    {
        self.byte(b'[');
        self.register(stage, s.index_kind, s.number);
        self.byte(b'.');
        self.component(s.component);
        self.byte(b'+');
        self.decimal(u16::from(s.offset));
        self.byte(b']');
    }

    #[inline(always)]
    fn sampler(&mut self, stage: Stage, s: Sampler)
        requires { RoomFor 52 self.old }
        ensures { Writes (sampler_text (stage_number stage) s) 52 self.old self.new }
    {
        self.byte(b' ');
        self.register(stage, s.kind, s.number);
        self.settings(s);
    }
}
