// What a sampler must be, whatever its number.
ghost use Rattle.std.specs.Prelude.{◌≡◌};
ghost use Rattle.layout.specs.Samplers.{settings_wrong};

use crate::record::Sampler;

pub fn settings_wrong(s: Sampler) -> bool
    ensures { result ≡ settings_wrong s }
{
    (s.kind != 5)
        | (1 < s.filter)
        | (1 < s.wrap)
        | (1 < s.dimension)
        | (2 < s.mipmap)
        | (s.special != 0)
}
