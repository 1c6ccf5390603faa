// Which calls of an object fail, and how many have.
ghost use Rattle.std.specs.Prelude.{◌≡◌, ◌≤◌, ◌+◌, true, if◌then◌else◌};
ghost use Rattle.std.specs.List.Sorted.{IsPermutation, IsNonDecreasing};
ghost use Rattle.slon_base.specs.Counts.{Rose};

/// The numbers of the calls that fail, ascending and counted from 1, and how many calls failed so far.
#[derive(Drop)]
pub struct FaultPlan {
    pub(crate) fails: Vec<u64>,
    pub(crate) calls: u64,
    pub(crate) faults: u64,
    ghost rising: { IsNonDecreasing fails.items },
}

impl FaultPlan {
    ghost use Rattle.node_keeper.specs.Plan.{Counted, is_due, left};

    /// A plan from its first call on.
    pub(crate) fn new(fails: Vec<u64>) -> FaultPlan
        ensures fails { IsPermutation fails.items result.fails.items }
        ensures calls { result.calls ≡ 0 }
        ensures faults { result.faults ≡ 0 }
    {
        let mut fails = fails;
        fails.sort_unstable();
        FaultPlan {
            fails,
            calls: 0,
            faults: 0,
        }
    }

    /// Counts a call, and says whether it has to fail.
    pub(crate) fn strikes(&mut self) -> bool
        ensures counted { Counted self.old self.new }
        ensures due { result ≡ is_due self.old.fails.items self.old.calls }
        ensures later { self.old.faults ≤ self.new.faults }
        ensures rose { result ≡ true → Rose self.old.faults self.new.faults }
        ensures fewer { (if result then left self.new.fails.items self.new.calls + 1
            else left self.new.fails.items self.new.calls) ≤ left self.old.fails.items self.old.calls }
    {
        if self.calls == u64::MAX {
            return false;
        }
        self.calls += 1;
        if self.fails.binary_search(&self.calls).is_err() {
            return false;
        }
        self.faults = self.faults.saturating_add(1);
        true
    }
}
