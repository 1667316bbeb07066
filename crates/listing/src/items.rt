// The items of a line: indentation, a register with its number, mask letters, swizzle letters.
ghost use Rattle.std.specs.Prelude.{◌≡◌, [], ◌∷◌, ◌≤◌};
ghost use Rattle.listing.specs.computed.Writers.{RoomFor, Writes, stage_number};
ghost use Rattle.listing.specs.Items.{indentation, register_text, component_letter, mask_text, swizzle_text};

use crate::stage::Stage;
use crate::text::Writer;

impl Writer<'_> {
    // Two spaces for each level of depth.
    #[inline(always)]
    pub(crate) fn indentation(&mut self, depth: u8)
        requires room { RoomFor 32 self.old }
        requires depth { depth ≤ 16 }
        ensures { Writes (indentation depth) 32 self.old self.new }
    {
        let spaces = [b' '; 32];
        self.copied(&spaces[..2 * depth as usize]);
    }

    #[inline(always)]
    pub(crate) fn register(&mut self, stage: Stage, kind: u8, number: u16)
        requires { RoomFor 7 self.old }
        ensures { Writes (register_text (stage_number stage) kind number) 7 self.old self.new }
    {
        self.register_name(stage, kind);
        self.decimal(number);
    }

    // A line for each of the four components: a loop over them is as long and needs an invariant. So it is in `swizzle`.
    #[inline(always)]
    pub(crate) fn mask(&mut self, mask: u8)
        requires { RoomFor 5 self.old }
        ensures { Writes (mask_text mask) 5 self.old self.new }
    {
        self.byte(b'.');
        self.when(layout::mask_has(mask, 0), b'x');
        self.when(layout::mask_has(mask, 1), b'y');
        self.when(layout::mask_has(mask, 2), b'z');
        self.when(layout::mask_has(mask, 3), b'w');
    }

    #[inline(always)]
    pub(crate) fn swizzle(&mut self, swizzle: u8)
        requires { RoomFor 5 self.old }
        ensures { Writes (swizzle_text swizzle) 5 self.old self.new }
    {
        self.byte(b'.');
        self.component(layout::selector(swizzle, 0));
        self.component(layout::selector(swizzle, 1));
        self.component(layout::selector(swizzle, 2));
        self.component(layout::selector(swizzle, 3));
    }

    // The letter of a component.
    #[inline(always)]
    pub(crate) fn component(&mut self, component: u8)
        requires { RoomFor 1 self.old }
        ensures { Writes (component_letter component ∷ []) 1 self.old self.new }
    {
        self.byte(match component {
            0 => b'x',
            1 => b'y',
            2 => b'z',
            _ => b'w',
        });
    }
}
