// Tokens that are passed at a glance: a few tests tell that a token has no fault, and what it does to the state. Most tokens pass; the others
// are judged rule by rule.
ghost use Rattle.std.specs.Prelude.{◌≡◌, ◌*◌, ◌+◌, ◌≤◌, length, IfSome};
ghost use Rattle.verifier.specs.computed.Glance.{Passes, passed_unless, RunsOver, opens_unwritten, KnownBranch};

use crate::state::State;
use crate::{places, state};
use components::quick;
use components::written::Written;
use faults::lawful::Usable;
use layout::fields::Fields;
use layout::opcodes;
use layout::opcodes::Flow;

// The set at hand after a run of tokens, and the number of the token after them.
#[derive(Clone, Copy)]
pub struct Run {
    pub current: Written,
    pub token: usize,
}

// From one token on, up to so many as there are, which is worked out once. Passes tokens that are no branches, one after the other, as long as
// each is known to have no fault. They leave branches alone, so the set at hand is all of the state that they touch.
pub(crate) fn pass_tokens(
    usable: Usable,
    from: Written,
    bytes: &[u8],
    first: usize,
    count: usize,
) -> Run
    requires first_le_count { first ≤ count }
    requires count_in_bounds { 7 + count * 24 ≤ length bytes.now }
    ensures { RunsOver usable from bytes.now first count result }
{
    let mut current = from;
    for token in first..count {
        let f = places::fields_at(bytes, token);
        let Some(next) = pass(usable, current, f) else {
            return Run { current, token };
        };
        current = next;
    }
    Run {
        current,
        token: count,
    }
}

// The set after a token, where the token is known to have no fault. Each test of a kind of token has its own question of what is read: a list of
// both as closures would be run in this order all the same, and say no less.
fn pass(usable: Usable, current: Written, f: Fields) -> Option<Written>
    ensures { IfSome result (Passes usable current f) }
{
    // Branches end a run; they are told first, since none of the tests below passes them.
    if opcodes::is_branch(f.opcode) {
        return None;
    }
    // D is the same bit of both fields, so one test asks for both. Of a sampler it is a bit of the filter, which no right sampler has set.
    if layout::is_indexed(f.source1 | f.source2) {
        if usable.is_lawful_indexed(f) {
            return passed_unless(quick::indexed_may_read_unwritten(current, f), current, f);
        }
        return None;
    }
    if usable.is_lawful(f) {
        return passed_unless(quick::may_read_unwritten(current, f), current, f);
    }
    if usable.is_lawful_matrix(f) {
        return passed_unless(quick::matrix_may_read_unwritten(current, f), current, f);
    }
    if usable.is_lawful_tex(f) {
        return passed_unless(quick::tex_may_read_unwritten(current, f), current, f);
    }
    if usable.is_lawful_kil(f) {
        // It writes nothing.
        return (!quick::kil_may_read_unwritten(current, f)).then_some(current);
    }
    None
}

// A lawful token is passed unless it may read what is not written.
fn passed_unless(unwritten: bool, current: Written, f: Fields) -> Option<Written>
    ensures { result ≡ passed_unless unwritten current f }
{
    if unwritten {
        return None;
    }
    let register = layout::unpack_register(f.destination);
    Some(state::written_by(current, register))
}

impl State {
    // What a token of a branch does to the state, where it is known to have no fault; Plain where that is not known, or it is no branch:
    // no Option, since either way the token is judged rule by rule.
    pub(crate) fn known_branch(&self, usable: Usable, f: Fields) -> Flow
        ensures { KnownBranch usable self.now f result }
    {
        if !usable.is_lawful_branch(f) {
            return Flow::Plain;
        }
        let flow = opcodes::flow_of(f.opcode);
        if self.is_misplaced(flow) | opens_unwritten(flow, self.current, f) {
            return Flow::Plain;
        }
        flow
    }
}

// Whether a token of a branch may read what is not written; els and eif read nothing.
fn opens_unwritten(flow: Flow, current: Written, f: Fields) -> bool
    ensures { result ≡ opens_unwritten flow current f }
{
    match flow {
        Flow::Opener => quick::opener_may_read_unwritten(current, f),
        Flow::Plain | Flow::Els | Flow::Eif => false,
    }
}
