ghost use Rattle.std.specs.Prelude.{◌≡◌, ◌≤◌};
ghost use Rattle.gated_journal.specs.Choice.{newer};
ghost use Rattle.gated_journal.specs.TwoAreas.{start_of, other};

/// One of a disk's two areas.
#[derive(Clone, Copy)]
pub enum Side {
    First,
    Second,
}

impl Side {
    /// The other side.
    pub fn other(self) -> Side
        ensures { result ≡ other self }
    {
        match self {
            Side::First => Side::Second,
            Side::Second => Side::First,
        }
    }

    /// Where the side begins on a disk whose areas are `len` bytes long.
    pub fn start(self, len: u64) -> u64
        ensures offset { result ≡ start_of len self }
        ensures within { result ≤ len }
    {
        match self {
            Side::First => 0,
            Side::Second => len,
        }
    }

    /// The active side, from the generations of the areas with open gates: the newer one, and the first of two equal ones.
    pub fn newer(first: Option<u64>, second: Option<u64>) -> Option<Side>
        ensures { result ≡ newer first second }
    {
        match (first, second) {
            (None, None) => None,
            (Some(_), None) => Some(Side::First),
            (None, Some(_)) => Some(Side::Second),
            (Some(first), Some(second)) => {
                if first < second {
                    Some(Side::Second)
                } else {
                    Some(Side::First)
                }
            }
        }
    }
}
