// A word written to a buffer.
ghost use Rattle.std.specs.Prelude.{◌≡◌};
ghost use Rattle.bytecode.specs.computed.Stored.{after_word};

// Writes the low four bytes of a number from a place on, the lowest first; nothing where they don't all fit, as is promised (`after_word`). The
// compiler makes one store of the four, since all are bytes of one number.
#[tactic(auto, unfolding(crate::specs::computed::Stored::after_word))]
pub fn put_word(out: &mut [u8], at: usize, word: u64)
    ensures { out.new ≡ after_word out.old at word }
{
    if at <= out.len() {
        let (_, rest) = out.split_at_mut(at);
        if let Some(place) = rest.first_chunk_mut() {
            let [a, b, c, d, ..] = word.to_le_bytes();
            *place = [a, b, c, d];
        }
    }
}
