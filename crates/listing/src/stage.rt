// The stage of a program.
ghost use Rattle.std.specs.Prelude.{◌≡◌, ◌≤◌, min, length};
ghost use Rattle.listing.specs.First.{stage_name};
ghost use Rattle.listing.specs.computed.Writers.{stage_number};

#[derive(Clone, Copy)]
pub(crate) enum Stage {
    Vertex,
    Fragment,
}

impl Stage {
    // A stage is 0, vertex; any other number is taken for a fragment program's (`stage_name`), so this is a name and no From.
    pub(crate) fn of(stage: u8) -> Stage
        ensures { stage_number result ≡ min stage 1 }
    {
        match stage {
            0 => Stage::Vertex,
            _ => Stage::Fragment,
        }
    }

    pub(crate) fn name(self) -> &'static [u8]
        ensures name { result.now ≡ stage_name (stage_number self) }
        ensures short { length result.now ≤ 8 }
    {
        match self {
            Stage::Vertex => b"vertex",
            Stage::Fragment => b"fragment",
        }
    }
}
