// The state of the check between two tokens: what is written on every path to here, and for each open branch what is written on the other
// way through it. It goes by value: what a token does to it is a method that takes the state and hands the next one back. Each is defined for
// every state and every number. Only what is known at a glance is stored by the check's loop itself: the set at hand after a run, and the
// branch that an opener puts away.
ghost use Rattle.std.specs.Prelude.{cond, ◌≡◌, ◌<◌};
ghost use Rattle.verifier.specs.computed.State.{slot_of, slot_around, is_misplaced, set_met, with_fault, exchanged_state, closed_state, joined_state, entered_state, opened_state, written_by, wrote_state};

use bytecode::answers::Refusal;
use components::written::Written;
use layout::opcodes::Flow;
use layout::record::MaskedRegister;

// An open branch: the set kept for the path that does not come by here, its opener's token number, and whether its els was met.
#[derive(Clone, Copy)]
pub struct Branch {
    pub kept: Written,
    pub opener: u16,
    pub els_met: bool,
}

// The innermost of the open branches stands by itself, since most tokens that change a branch change that one. The array has those around
// it, the outermost first: nothing is allocated, and document 01 names arrays that go by value. How many are open is told by the depth alone, and
// every state that can be written down is one that the methods take, so the innermost is no Option. The fault is the first that was met.
#[derive(Clone, Copy)]
pub struct State {
    pub current: Written,
    pub innermost: Branch,
    pub depth: usize,
    pub around: [Branch; 16],
    pub fault: Option<Refusal>,
}

const NO_BRANCH: Branch = Branch {
    kept: Written::EMPTY,
    opener: 0,
    els_met: false,
};

// Before the first token nothing is written, no branch is open and there is no fault.
pub const START: State = State {
    current: Written::EMPTY,
    innermost: NO_BRANCH,
    depth: 0,
    around: [NO_BRANCH; 16],
    fault: None,
};

impl State {
    // Where the innermost branch is put when another is opened in it. Every number of open branches has a place.
    pub(crate) fn slot(&self) -> usize
        ensures { (result ≡ slot_of self.now.depth) × (result < 16) }
    {
        (self.depth % 16 + 15) % 16
    }

    // Where the branch around it stands: one place further back. A number for how far back would have to be bounded, here and in the definition.
    pub(crate) fn slot_around(&self) -> usize
        ensures { (result ≡ slot_around self.now.depth) × (result < 16) }
    {
        (self.depth % 16 + 14) % 16
    }

    // Fault 20.
    pub(crate) fn is_misplaced(&self, flow: Flow) -> bool
        ensures { result ≡ is_misplaced self.now flow }
    {
        match flow {
            Flow::Plain => false,
            Flow::Opener => 16 <= self.depth,
            Flow::Els => (self.depth < 1) | self.innermost.els_met,
            Flow::Eif => self.depth < 1,
        }
    }

    // The set at hand as a token is met: els takes up the set that was kept, eif joins the sets of both blocks.
    pub(crate) fn set_met(&self, flow: Flow) -> Written
        ensures { result ≡ set_met flow self.now.current self.now.innermost.kept }
    {
        match flow {
            Flow::Plain | Flow::Opener => self.current,
            Flow::Els => self.innermost.kept,
            Flow::Eif => self.current.join(self.innermost.kept),
        }
    }

    // The same state with a fault.
    pub(crate) fn refused(mut self, fault: Refusal) -> State
        ensures { result ≡ with_fault self fault }
    {
        self.fault = Some(fault);
        self
    }

    // els: the set of the first block is kept, and what was written before the branch is at hand.
    pub(crate) fn exchanged(mut self) -> State
        ensures { result ≡ exchanged_state self }
    {
        let current = self.current.by_halves();
        self.current = self.innermost.kept.by_halves();
        self.innermost = Branch {
            kept: current,
            opener: self.innermost.opener,
            els_met: true,
        };
        self
    }

    // eif.
    pub(crate) fn joined(self) -> State
        ensures { result ≡ joined_state self }
    {
        let around = self.around[self.slot_around()];
        self.closed(around)
    }

    // The sets of both blocks are joined, and the branch around this one, which is handed in, is the innermost again.
    pub(crate) fn closed(mut self, around: Branch) -> State
        ensures { result ≡ closed_state self around }
    {
        self.current = self.current.join(self.innermost.kept);
        self.innermost = Branch {
            kept: around.kept.by_halves(),
            ..around
        };
        self.depth = self.slot();
        self
    }

    // An opener: the branch that was innermost is put away.
    pub(crate) fn opened(mut self, token: u16) -> State
        ensures { result ≡ opened_state self token }
    {
        self.around[self.slot()] = self.innermost;
        self.entered(token)
    }

    // A branch is opened, and the set at hand is kept for its other side. The one that was innermost was put away before.
    pub(crate) fn entered(mut self, token: u16) -> State
        ensures { result ≡ entered_state self token }
    {
        self.innermost = Branch {
            kept: self.current.by_halves(),
            opener: token,
            els_met: false,
        };
        self.depth = self.depth % 16 + 1;
        self
    }

    // With the components that a token writes, where its destination is a temporary register.
    pub(crate) fn wrote(mut self, destination: Option<MaskedRegister>) -> State
        ensures { result ≡ wrote_state self destination }
    {
        if let Some(register) = destination {
            self.current = written_by(self.current, register);
        }
        self
    }
}

// A set with what is written to a register, where that is a temporary one. There is no branch to guess: kinds come in no order.
pub(crate) fn written_by(current: Written, register: MaskedRegister) -> Written
    ensures { result ≡ written_by current register }
{
    let mask = temporary_mask(register.kind == 2, register.mask);
    current.mark(register.number, mask)
}

// The processor chooses here and guesses nothing, as in `only` of `components`.
fn temporary_mask(temporary: bool, mask: u8) -> u8
    ensures { result ≡ cond temporary mask 0 }
{
    if temporary { mask } else { 0 }
}
