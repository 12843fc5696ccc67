ghost use Rattle.std.specs.Prelude.{◌≡◌};
ghost use Rattle.act_disk.specs.Fuse.{fails_now, after_call};

/// Which of the coming calls fail, counted from 0.
#[derive(Clone, Copy)]
pub enum Failing {
    /// Only this one.
    Once(u64),
    /// This one and all after it.
    From(u64),
    Never,
}

impl Failing {
    /// Counts the next call and says whether it fails.
    pub(crate) fn next_fails(&mut self) -> bool
        ensures fails { result ≡ fails_now self.old }
        ensures after { self.new ≡ after_call self.old }
    {
        let failing = *self;
        match failing {
            Failing::Once(0) => *self = Failing::Never,
            Failing::Once(left) => *self = Failing::Once(left - 1),
            Failing::From(0) | Failing::Never => {}
            Failing::From(left) => *self = Failing::From(left - 1),
        }
        matches!(failing, Failing::Once(0) | Failing::From(0))
    }
}
