// Which kinds of registers a program reads as direct sources, and which it writes. A whole program has one stage, so that is asked first.
// Two lists of the format, each a function: kinds that both have stand in both.
ghost use Rattle.std.specs.Prelude.{◌≡◌};
ghost use Rattle.registers.specs.Uses.{is_readable, is_writable};

pub fn is_readable(kind: u8, stage: u8) -> bool
    ensures { result ≡ is_readable kind stage }
{
    match stage {
        0 => matches!(kind, 0 | 1 | 2),
        1 => matches!(kind, 1 | 2 | 4),
        _ => false,
    }
}

pub fn is_writable(kind: u8, stage: u8) -> bool
    ensures { result ≡ is_writable kind stage }
{
    match stage {
        0 => matches!(kind, 2 | 3 | 4),
        1 => matches!(kind, 2 | 3 | 6),
        _ => false,
    }
}
