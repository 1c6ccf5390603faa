// What a store was told to fail, and what calls make of it.
ghost use Rattle.std.specs.Prelude.{◌≡◌};
ghost use Rattle.slon_base.specs.Charges.{burnt, burnt_by_commit, is_blown};

/// What a store was told to fail on purpose.
#[derive(Clone, Copy, Debug, PartialEq, Eq)]
pub enum Charge {
    /// To fail no call.
    Off,
    /// To let this number of calls through, and to fail the next one.
    After { calls: u64, keep: bool },
    /// To fail the next commit.
    AtCommit { keep: bool },
    /// To fail each call, as one was failed.
    Blown { keep: bool },
}

impl Charge {
    /// What a call makes of it that is no commit.
    pub fn burnt(self) -> Charge
        ensures { result ≡ burnt self }
    {
        match self {
            Charge::After { calls: 0, keep } => Charge::Blown { keep },
            Charge::After { calls, keep } => Charge::After {
                calls: calls - 1,
                keep,
            },
            charge => charge,
        }
    }

    /// What a commit makes of it.
    pub fn burnt_by_commit(self) -> Charge
        ensures { result ≡ burnt_by_commit self }
    {
        match self {
            Charge::AtCommit { keep } => Charge::Blown { keep },
            charge => charge.burnt(),
        }
    }

    /// Whether the call fails that made this of the charge.
    pub fn is_blown(self) -> bool
        ensures { result ≡ is_blown self }
    {
        matches!(self, Charge::Blown { .. })
    }
}
