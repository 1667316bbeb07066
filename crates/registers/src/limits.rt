// How many tokens a program may hold.
ghost use Rattle.std.specs.Prelude.{◌≡◌};
ghost use Rattle.registers.specs.Limits.{limit_of};

#[tactic(auto, unfolding(crate::specs::Limits::limit_of))]
pub fn token_limit(edition: u32) -> usize
    ensures { result ≡ limit_of edition }
{
    match edition {
        1 => 200,
        2 => 1024,
        3 => 2048,
        _ => 0,
    }
}
