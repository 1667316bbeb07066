// The whole check of a program.
ghost use Rattle.std.specs.Prelude.{◌≡◌, ◌<◌, ◌≤◌, length};
ghost use Rattle.layout.specs.Programs.{token_count};
ghost use Rattle.verifier.specs.computed.Steps.{opens_unlisted, steps_over, finish_of, judged_by};
ghost use Rattle.verifier.specs.computed.State.{start_state};
ghost use Rattle.verifier.specs.computed.Glance.{CanJudge};
ghost use Rattle.verifier.specs.Exact.{Checks};

use crate::answers::Program;
use crate::state::State;
use crate::{glance, places, state};
use bytecode::answers::Refusal;
use faults::lawful::Usable;
use faults::profile::Profile;
use layout::opcodes;
use layout::opcodes::Flow;

// Judges a program under an edition, in one pass over its tokens. The two are what document 01 hands in, and go side by side.
pub fn check(edition: u32, bytes: &[u8]) -> Result<Program, Refusal>
    ensures { Checks edition bytes.now result }
{
    faults::header_fault(edition, bytes)?;
    if opens_unlisted(bytes) {
        return Err(bytecode::refusal(9, 0, 0));
    }
    check_tokens(edition, bytes)
}

// Whether the opcode of the first token is not listed. Bytes that are no program show there, and are refused before registers are counted and
// a state is made.
#[tactic(auto, unfolding(crate::specs::computed::Steps::opens_unlisted))]
fn opens_unlisted(bytes: &[u8]) -> bool
    ensures { result ≡ opens_unlisted bytes.now }
{
    // A header and one token.
    if bytes.len() < 31 {
        return false;
    }
    let first = places::fields_at(bytes, 0);
    !opcodes::shape_of(first.opcode).listed
}

// Faults 9 to 22 of a program that has a header.
#[tactic(auto, unfolding(crate::specs::computed::Steps::judged_by, faults::specs::computed::LawfulTests::usable_of))]
fn check_tokens(edition: u32, bytes: &[u8]) -> Result<Program, Refusal>
    requires in_bounds { 7 ≤ length bytes.now }
    requires bytes_bound { token_count bytes.now < 65536 }
    ensures { result ≡ judged_by edition bytes.now }
{
    let stage = bytes[6];
    let count = (bytes.len() - 7) / 24;
    let usable = Usable::of(Profile::of(edition, stage));
    last_state(usable, bytes, count).finish(stage, count)
}

// The state after so many tokens, or after the first of them that has a fault: a run of tokens at a glance, then one token by itself, until there
// is none left. The tokens are counted by hand, since a run takes any number of them, and how many there are is worked out once. The branch that
// a known opener puts away and a known eif takes up again is stored and read here, in its place: a method that took the array would copy it. For
// the same reason a refused state is handed back before it is assigned.
fn last_state(usable: Usable, bytes: &[u8], count: usize) -> State
    requires { CanJudge usable bytes.now count }
    ensures { result ≡ steps_over usable.profile bytes.now start_state 0 count }
{
    let mut state = state::START;
    let mut token = 0;
    loop {
        let run = glance::pass_tokens(usable, state.current, bytes, token, count);
        state.current = run.current.by_halves();
        token = run.token + 1;
        if count < token {
            return state;
        }
        let f = places::fields_at(bytes, run.token);
        match state.known_branch(usable, f) {
            Flow::Opener => {
                state.around[state.slot()] = state.innermost;
                state = state.entered(run.token as u16);
            }
            Flow::Els => state = state.exchanged(),
            Flow::Eif => {
                let around = state.around[state.slot_around()];
                state = state.closed(around);
            }
            Flow::Plain => {
                let next = state.step(usable.profile, run.token as u16, f);
                if next.fault.is_some() {
                    return next;
                }
                state = next;
            }
        }
    }
}

impl State {
    // The answer after the last token: the fault that was met, or 22 where a branch is still open, at its opener.
    #[tactic(auto, unfolding(crate::specs::computed::Steps::finish_of))]
    pub(crate) fn finish(self, stage: u8, tokens: usize) -> Result<Program, Refusal>
        ensures { result ≡ finish_of self stage tokens }
    {
        if let Some(fault) = self.fault {
            return Err(fault);
        }
        if self.depth == 0 {
            return Ok(Program { stage, tokens });
        }
        Err(bytecode::refusal(22, self.innermost.opener as usize, 0))
    }
}
