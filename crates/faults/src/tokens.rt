// The first of faults 9 to 19 of one token.
ghost use Rattle.std.specs.Prelude.{ℕ, Bool, ◌≡◌, cond};
ghost use Rattle.layout.specs.Records.{operand_of, token_of};
ghost use Rattle.bytecode.specs.Decode.{outcome};
ghost use Rattle.faults.specs.computed.Profile.{count_in};
ghost use Rattle.faults.specs.Order.{first_fault, source_rules};
ghost use Rattle.faults.specs.computed.Faults.{number_of, opcode_fault, record_fault, own_fault, undecoded_fault};

use crate::profile::Profile;
use crate::rules;
use bytecode::answers::Refusal;
use layout::fields::RawToken;
use layout::opcodes::OperandShape;
use layout::selection;

// The token's number is handed in, since `own_fault` and `undecoded_fault` promise the whole refusal.
impl Profile {
    // 10 and 11, then 14 to 19, of a record, from the fields that make it.
    #[tactic(auto, unfolding(crate::specs::computed::Faults::own_fault, layout::specs::Records::token_of))]
    pub fn own_fault(self, token: usize, raw: RawToken) -> Result<(), Refusal>
        ensures { result ≡ outcome (own_fault self token (token_of raw.shape raw.fields)) }
    {
        let f = raw.fields;
        self.opcode_fault(token, f.opcode)?;
        self.record_fault(token, raw)
    }

    // The fault of a token that decode refuses: 10 and 11 come before 12 and 13.
    #[tactic(auto, unfolding(crate::specs::computed::Faults::undecoded_fault))]
    pub fn undecoded_fault(self, token: usize, r: Refusal, opcode: u32) -> Refusal
        ensures { result ≡ undecoded_fault self token r opcode }
    {
        if 12 <= r.number {
            if let Err(earlier) = self.opcode_fault(token, opcode) {
                return earlier;
            }
        }
        bytecode::refusal(r.number, token, r.part)
    }

    // 10 and 11.
    fn opcode_fault(self, token: usize, opcode: u32) -> Result<(), Refusal>
        ensures { result ≡ outcome (opcode_fault self token opcode) }
    {
        if self.opcode_too_new(opcode) {
            return Err(bytecode::refusal(10, token, 0));
        }
        if self.opcode_not_for_stage(opcode) {
            return Err(bytecode::refusal(11, token, 0));
        }
        Ok(())
    }

    // 14 to 19 of a record.
    #[tactic(auto, using(crate::proofs::FaultLaws::staged), unfolding(layout::specs::Records::token_of))]
    fn record_fault(self, token: usize, raw: RawToken) -> Result<(), Refusal>
        ensures { result ≡ outcome (record_fault self token (token_of raw.shape raw.fields)) }
    {
        let shape = raw.shape;
        let f = raw.fields;
        let destination = layout::unpack_destination(shape.destination, f.destination);
        if self.destination_wrong(destination) {
            return Err(bytecode::refusal(14, token, 1));
        }
        if rules::mask_wrong(f.opcode, destination) {
            return Err(bytecode::refusal(15, token, 1));
        }
        self.operand_fault(
            1,
            shape.source1,
            f.source1,
            |swizzle| rules::selectors_differ(f.opcode, swizzle),
        )
        .map_err(|number| bytecode::refusal(number, token, 2))?;
        let rows = selection::rows2(f.opcode);
        self.operand_fault(
            rows,
            shape.source2,
            f.source2,
            |swizzle| rules::matrix_swizzled(f.opcode, swizzle),
        )
        .map_err(|number| bytecode::refusal(number, token, 3))
    }

    // The number alone, as a refusal has it: token and part are the caller's. It is that of the first of 16 to 19 of an operand of so many rows, whose rule 18 is `swizzled`.
    fn operand_fault<F: Fn(u8) -> bool>(
        self,
        rows: u8,
        shape: OperandShape,
        field: u64,
        swizzled: F,
    ) -> Result<(), u8>
        requires { F.IsAlwaysCallable swizzled }
        ensures { (test : ℕ → Bool) → ((z : ℕ) (b : Bool) → F.post swizzled z b → b ≡ test z) → result ≡ number_of (first_fault (source_rules (count_in self) self.stage rows test 0 (operand_of shape field))) }
    {
        match shape {
            OperandShape::Unused => Ok(()),
            OperandShape::Source => {
                if layout::is_indexed(field) {
                    let s = layout::unpack_indexed(field);
                    rule(self.indexed_wrong(rows, s), 16)?;
                    return rule(swizzled(s.swizzle), 18);
                }
                let s = layout::unpack_direct(field);
                rule(self.direct_wrong(rows, s), 17)?;
                rule(swizzled(s.swizzle), 18)
            }
            OperandShape::Sampler => rule(self.sampler_wrong(layout::unpack_sampler(field)), 19),
        }
    }
}

// What a rule answers: its number, where it is broken.
fn rule(broken: bool, number: u8) -> Result<(), u8>
    ensures { result ≡ cond broken (Err number) (Ok tt) }
{
    if broken { Err(number) } else { Ok(()) }
}
