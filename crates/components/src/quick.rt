// Quick tests for lawful tokens, which have none of faults 9 to 19: whether such a token may read what is not written. Each says yes of every
// token that does. Those of matrices and indexed sources ask for all four components, and so may say yes of one that does not.
// Each takes a set and a token's fields as they are: a struct of both would be made for one call and taken apart in it.
ghost use Rattle.std.specs.Prelude.{◌≡◌, true, false};
ghost use Rattle.layout.specs.Records.{is_indexed, indexed_of};
ghost use Rattle.components.specs.computed.Access.{lacks_access, index_access};
ghost use Rattle.components.specs.computed.QuickTests.{may_read_unwritten, matrix_may_read_unwritten, tex_may_read_unwritten, may_lack, indexed_may_read_unwritten, opener_lacks, opener_may_read_unwritten, kil_may_read_unwritten};
ghost use Rattle.components.specs.computed.ReadsWritten.{OrdinaryReads, MatrixReads, TexReads, IndexedReads, OpenerReads, KilReads};

use crate::written::Written;
use layout::fields::Fields;
use layout::selection;

// For a token with a destination and direct sources of one register each. A source that is not used is 0, which names no temporary register,
// and is asked as the other is.
#[tactic(auto, using(crate::proofs::QuickLaws::ordinary_means), unfolding(crate::specs::computed::QuickTests::may_read_unwritten))]
pub fn may_read_unwritten(current: Written, f: Fields) -> bool
    ensures { (result ≡ may_read_unwritten current f) × OrdinaryReads result current f }
{
    if !(current.lacks_some(1, f.source1) | current.lacks_some(1, f.source2)) {
        return false;
    }
    let register = layout::unpack_register(f.destination);
    let first = selection::selectors1(f.opcode, register.mask, 0);
    let first_lacks = current.lacks_direct(f.source1, first);
    let second = selection::selectors2(f.opcode, register.mask);
    first_lacks | current.lacks_direct(f.source2, second)
}

// The same of a matrix, whose rows of source 2 are asked for all four components.
#[tactic(auto, using(crate::proofs::QuickLaws::matrix_means), unfolding(crate::specs::computed::QuickTests::matrix_may_read_unwritten))]
pub fn matrix_may_read_unwritten(current: Written, f: Fields) -> bool
    ensures { (result ≡ matrix_may_read_unwritten current f) × MatrixReads result current f }
{
    let register = layout::unpack_register(f.destination);
    let first = selection::selectors1(f.opcode, register.mask, 0);
    current.lacks_direct(f.source1, first)
        | current.lacks_some(selection::rows2(f.opcode), f.source2)
}

// The same of tex, which reads through source 1 alone.
#[tactic(auto, using(crate::proofs::QuickLaws::tex_means), unfolding(crate::specs::computed::QuickTests::tex_may_read_unwritten))]
pub fn tex_may_read_unwritten(current: Written, f: Fields) -> bool
    ensures { (result ≡ tex_may_read_unwritten current f) × TexReads result current f }
{
    let sampler = layout::unpack_sampler(f.source2);
    current.lacks_direct(f.source1, selection::coordinates(sampler.dimension))
}

// The same where a source may be indexed, of a matrix too. All components of a direct source's rows are asked for.
#[tactic(auto, using(crate::proofs::QuickLaws::indexed_means), unfolding(crate::specs::computed::QuickTests::indexed_may_read_unwritten))]
pub fn indexed_may_read_unwritten(current: Written, f: Fields) -> bool
    ensures { (result ≡ indexed_may_read_unwritten current f) × IndexedReads result current f }
{
    may_lack(current, 1, f.source1) | may_lack(current, selection::rows2(f.opcode), f.source2)
}

#[tactic(auto, unfolding(crate::specs::computed::QuickTests::may_lack))]
fn may_lack(current: Written, rows: u8, field: u64) -> bool
    ensures { result ≡ may_lack current rows field }
{
    by_index_or(current, field, || current.lacks_some(rows, field))
}

// An indexed source is asked for its index register, and a direct one by the test.
fn by_index_or<F: FnOnce() -> bool>(current: Written, field: u64, direct: F) -> bool
    requires { F.IsAlwaysCallable direct }
    ensures if_indexed { is_indexed field ≡ true → result ≡ lacks_access current (index_access (indexed_of field)) }
    ensures if_direct { is_indexed field ≡ false → F.post direct result }
{
    if layout::is_indexed(field) {
        return current.lacks_index(field);
    }
    direct()
}

// The same of an opener, each of whose sources may be indexed; a direct one is read by all four selectors.
#[tactic(auto, using(crate::proofs::QuickLaws::opener_means), unfolding(crate::specs::computed::QuickTests::opener_may_read_unwritten))]
pub fn opener_may_read_unwritten(current: Written, f: Fields) -> bool
    ensures { (result ≡ opener_may_read_unwritten current f) × OpenerReads result current f }
{
    opener_lacks(current, f.source1) | opener_lacks(current, f.source2)
}

#[tactic(auto, unfolding(crate::specs::computed::QuickTests::opener_lacks))]
fn opener_lacks(current: Written, field: u64) -> bool
    ensures { result ≡ opener_lacks current field }
{
    by_index_or(current, field, || {
        current.lacks_direct(field, selection::ALL_FOUR)
    })
}

// The same of kil, which reads by the first selector of source 1.
#[tactic(auto, using(crate::proofs::QuickLaws::kil_means), unfolding(crate::specs::computed::QuickTests::kil_may_read_unwritten))]
pub fn kil_may_read_unwritten(current: Written, f: Fields) -> bool
    ensures { (result ≡ kil_may_read_unwritten current f) × KilReads result current f }
{
    current.lacks_direct(f.source1, selection::FIRST)
}
