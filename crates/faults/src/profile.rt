// What an edition gives the programs of a stage, looked up once for each program.
ghost use Rattle.std.specs.Prelude.{◌≡◌};
ghost use Rattle.faults.specs.computed.Profile.{profile_of, count_at, count_in};

// Register counts stand by kind, eight bits each, so that one shift finds a count. `of` answers every edition and stage, so both are numbers.
#[derive(Clone, Copy)]
pub struct Profile {
    pub edition: u32,
    pub stage: u8,
    pub counts: u64,
}

impl Profile {
    pub fn of(edition: u32, stage: u8) -> Profile
        ensures { result ≡ profile_of edition stage }
    {
        let counts = registers::register_counts(edition, stage);
        Profile {
            edition,
            stage,
            counts,
        }
    }

    // How many registers of a kind there are.
    #[tactic(auto, unfolding(crate::specs::computed::Profile::count_in))]
    pub(crate) fn count_of(self, kind: u8) -> u16
        ensures { result ≡ count_in self kind }
    {
        if 8 <= kind {
            return 0;
        }
        count_at(self.counts, kind)
    }
}

// The count of a kind below 8.
pub(crate) fn count_at(counts: u64, kind: u8) -> u16
    ensures { result ≡ count_at counts kind }
{
    ((counts >> (8 * (kind % 8) as u32)) % 256) as u16
}
