// The level-of-detail bias of a sampler as a float.
ghost use Rattle.bytecode.specs.Bias.{IsBias};

use layout::record::Sampler;

// Exactly an eighth of the record's signed byte.
pub fn bias(sampler: Sampler) -> f32
    ensures { IsBias sampler.bias result }
{
    (sampler.bias as f32) / 8.0
}
