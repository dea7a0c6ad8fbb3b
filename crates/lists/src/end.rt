// How a run of a refiner ends. Document 01, "FM", "KL" and "Arc-swap".
ghost use Rattle.std.specs.Prelude.{◌≡◌};
ghost use Rattle.lists.specs.End.{end_number};

#[derive(Clone, Copy, Debug, PartialEq, Eq)]
pub enum End {
    // 0: the passes asked for are made.
    PassLimit,
    // 1: a pass did not lower the cut.
    NoGain,
    // 2: the pushes of a move do not all fit the lent stack.
    StackFull,
    // 3: there is no vertex.
    NoVertex,
}

// The number that a report gives, by a match, so that two cases with one number are a wrong program and no faulty enum.
impl From<End> for u32 {
    ghost from_gives = { λ end number. number ≡ end_number end };

    fn from(end: End) -> u32 {
        match end {
            End::PassLimit => 0,
            End::NoGain => 1,
            End::StackFull => 2,
            End::NoVertex => 3,
        }
    }
}
