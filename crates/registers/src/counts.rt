// Register counts.
ghost use Rattle.std.specs.Prelude.{◌≡◌, ◌≤◌};
ghost use Rattle.registers.specs.Counts.{count_of};
ghost use Rattle.registers.specs.computed.Packed.{packed};

// By kind, edition from the first, and stage: vertex, fragment.
const COUNTS: [[[u8; 2]; 3]; 7] = [
    [[8, 0], [8, 0], [16, 0]],
    [[128, 28], [250, 64], [250, 200]],
    [[8, 8], [26, 26], [26, 26]],
    [[1, 1], [1, 1], [1, 1]],
    [[8, 8], [10, 10], [10, 10]],
    [[0, 8], [0, 16], [0, 16]],
    [[0, 0], [0, 1], [0, 1]],
];

// How many registers of each kind there are, eight bits for each, kind 0 the lowest: none is above 250.
#[tactic(auto, using(crate::proofs::Packed::absent))]
pub fn register_counts(edition: u32, stage: u8) -> u64
    ensures { result ≡ packed (λ kind. count_of kind edition stage) }
{
    match (edition, stage) {
        (1..=3, 0..=1) => counts_of(edition, stage),
        _ => 0,
    }
}

// A constant array is built wherever it is read, so all counts are read at once. A line for each kind: a map over the kinds would make another array,
// to be taken apart into these eight bytes again.
fn counts_of(edition: u32, stage: u8) -> u64
    requires first { 1 ≤ edition }
    requires last { edition ≤ 3 }
    requires stages { stage ≤ 1 }
    ensures { result ≡ packed (λ kind. count_of kind edition stage) }
{
    let counts = COUNTS;
    let e = (edition - 1) as usize;
    let s = stage as usize;
    u64::from_le_bytes([
        counts[0][e][s],
        counts[1][e][s],
        counts[2][e][s],
        counts[3][e][s],
        counts[4][e][s],
        counts[5][e][s],
        counts[6][e][s],
        0,
    ])
}
