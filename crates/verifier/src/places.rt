// Where tokens stand in a program's bytes.
ghost use Rattle.std.specs.Prelude.{◌≡◌, ◌+◌, ◌*◌, ◌≤◌, length};
ghost use Rattle.bytecode.specs.Fields.{fields_of};
ghost use Rattle.layout.specs.Programs.{token_at};

use layout::fields::Fields;

// The fields of a token.
pub(crate) fn fields_at(bytes: &[u8], token: usize) -> Fields
    requires { 7 + token * 24 + 24 ≤ length bytes.now }
    ensures { result ≡ fields_of (token_at bytes.now token) }
{
    let at = 7 + token * 24;
    bytecode::fields_of(&bytes[at..at + 24])
}
