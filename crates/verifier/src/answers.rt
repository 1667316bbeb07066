// What the check answers of a program that it accepts.

// Stage 0 is vertex, 1 fragment: the number that `checked_numbers` states and that C reads.
#[derive(Clone, Copy)]
pub struct Program {
    pub stage: u8,
    pub tokens: usize,
}
