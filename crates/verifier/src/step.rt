// One token: the state after it, with the token's first fault where it has one.
ghost use Rattle.std.specs.Prelude.{◌≡◌};
ghost use Rattle.verifier.specs.computed.Step.{first_of, made_of, fault_of_fields, paths_fault, step_of};

use crate::state::State;
use bytecode::answers::Refusal;
use components::access;
use components::access::Source;
use faults::profile::Profile;
use layout::fields::{Fields, RawToken};
use layout::opcodes;
use layout::opcodes::Flow;

impl State {
    // Judges one token, whose number is `token`, by its fields. A state that has a fault stays as it is: the first fault counts.
    #[tactic(auto, unfolding(crate::specs::computed::Step::step_of, crate::specs::computed::Step::follow_of, layout::specs::Records::token_of))]
    pub(crate) fn step(self, profile: Profile, token: u16, f: Fields) -> State
        ensures { result ≡ step_of self profile token f }
    {
        if self.fault.is_some() {
            return self;
        }
        let raw = RawToken::of(f);
        match self.fault_of(profile, token, raw) {
            Err(fault) => self.refused(fault),
            Ok(()) => {
                // The flow is asked once: with a match before the write and another after it the array of branches is copied more often.
                let destination = layout::unpack_destination(raw.shape.destination, f.destination);
                match opcodes::flow_of(f.opcode) {
                    Flow::Plain => self.wrote(destination),
                    Flow::Opener => self.wrote(destination).opened(token),
                    Flow::Els => self.exchanged().wrote(destination),
                    Flow::Eif => self.joined().wrote(destination),
                }
            }
        }
    }

    // The first fault of a token: 9 to 19 come before those of branches and paths.
    fn fault_of(&self, profile: Profile, token: u16, raw: RawToken) -> Result<(), Refusal>
        ensures { result ≡ first_of (fault_of_fields profile token raw) (paths_fault self.now token (made_of raw)) }
    {
        fault_of_fields(profile, token, raw)?;
        self.fault_of_paths(token, raw)
    }

    // 20 and 21.
    #[tactic(auto, unfolding(crate::specs::computed::Step::fault_of_paths, layout::specs::Records::token_of))]
    fn fault_of_paths(&self, token: u16, raw: RawToken) -> Result<(), Refusal>
        ensures { result ≡ paths_fault self.now token (made_of raw) }
    {
        let flow = opcodes::flow_of(raw.fields.opcode);
        if self.is_misplaced(flow) {
            return Err(bytecode::refusal(20, token as usize, 0));
        }
        let met = self.set_met(flow);
        if access::reads_unwritten(met, raw, Source::First) {
            return Err(bytecode::refusal(21, token as usize, 2));
        }
        if access::reads_unwritten(met, raw, Source::Second) {
            return Err(bytecode::refusal(21, token as usize, 3));
        }
        Ok(())
    }
}

// The first of faults 9 to 19.
#[tactic(auto, using(bytecode::proofs::DecodeLaws::not_clean), unfolding(crate::specs::computed::Step::fault_of_fields))]
fn fault_of_fields(profile: Profile, token: u16, raw: RawToken) -> Result<(), Refusal>
    ensures { result ≡ fault_of_fields profile token raw }
{
    if bytecode::is_clean(raw) {
        return profile.own_fault(token as usize, raw);
    }
    bytecode::fault_of(raw).map_err(|fault| profile.undecoded_fault(
        token as usize,
        fault,
        raw.fields.opcode,
    ))
}
