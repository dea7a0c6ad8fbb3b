// Why a call is refused. Document 01, "Numbers a call gives back".
ghost use Rattle.std.specs.Prelude.{◌≡◌};
ghost use Rattle.lists.specs.Refusal.{number_of};

#[derive(Clone, Copy, Debug, PartialEq, Eq)]
pub enum Refusal {
    // 1: the lists do not fit one another.
    Lengths,
    // 2: too many vertices or arcs.
    Limits,
    // 3: a row rule is broken.
    Rows,
    // 4: an arc has no equal opposite.
    Opposites,
    // 5: a weight sum is over its limit.
    Weights,
    // 6: a label that the call does not take.
    Labels,
    // 7: a setting that the call does not take.
    Settings,
    // 8: a lent working list is too short.
    Lent,
    // 9: the plan's length is not a positive multiple of 512.
    FileLength,
    // 10: a block's check fails.
    Check,
    // 11: the header block is laid out wrongly.
    HeaderLayout,
    // 12: a header number is out of range.
    HeaderNumbers,
    // 13: a later block is laid out wrongly, or the block count is wrong.
    LaterBlocks,
    // 14: degrees do not sum to the arcs, or a label is not below k.
    Records,
    // 15: a lent target is too short.
    Targets,
}

// The number that a call gives back, by a match, so that two cases with one number are a wrong program and no faulty enum.
impl From<Refusal> for u32 {
    ghost from_gives = { λ refusal number. number ≡ number_of refusal };

    fn from(refusal: Refusal) -> u32 {
        match refusal {
            Refusal::Lengths => 1,
            Refusal::Limits => 2,
            Refusal::Rows => 3,
            Refusal::Opposites => 4,
            Refusal::Weights => 5,
            Refusal::Labels => 6,
            Refusal::Settings => 7,
            Refusal::Lent => 8,
            Refusal::FileLength => 9,
            Refusal::Check => 10,
            Refusal::HeaderLayout => 11,
            Refusal::HeaderNumbers => 12,
            Refusal::LaterBlocks => 13,
            Refusal::Records => 14,
            Refusal::Targets => 15,
        }
    }
}
