// The settings of a sampler.
ghost use Rattle.listing.specs.computed.Writers.{RoomFor, Writes};
ghost use Rattle.listing.specs.Items.{settings_text, texture_text, sampling_text, bias_text};

use crate::names;
use crate::text::Writer;
use layout::record::Sampler;

impl Writer<'_> {
    #[inline(always)]
    pub(crate) fn settings(&mut self, s: Sampler)
        requires { RoomFor 44 self.old }
        ensures { Writes (settings_text s) 44 self.old self.new }
    {
        self.byte(b'<');
        self.texture(s);
        self.sampling(s);
        self.bias(s);
        self.byte(b'>');
    }

    // Dimension and mipmap.
    #[inline(always)]
    fn texture(&mut self, s: Sampler)
        requires { RoomFor 15 self.old }
        ensures { Writes (texture_text s) 15 self.old self.new }
    {
        self.bytes(names::dimension_name(s.dimension));
        self.byte(b',');
        self.bytes(names::mipmap_name(s.mipmap));
    }

    // Wrap and filter.
    #[inline(always)]
    fn sampling(&mut self, s: Sampler)
        requires { RoomFor 15 self.old }
        ensures { Writes (sampling_text s) 15 self.old self.new }
    {
        self.byte(b',');
        self.bytes(names::wrap_name(s.wrap));
        self.byte(b',');
        self.bytes(names::filter_name(s.filter));
    }

    // The bias, in eighths of a level of detail.
    #[inline(always)]
    fn bias(&mut self, s: Sampler)
        requires { RoomFor 12 self.old }
        ensures { Writes (bias_text s) 12 self.old self.new }
    {
        self.bytes(b",bias=");
        self.signed(s.bias);
    }
}
