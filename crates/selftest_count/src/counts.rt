//! Counts.

ghost use Rattle.std.specs.Prelude.{◌≡◌, ◌+◌, ◌<◌, ◌≤◌, ◌^◌};
ghost use Rattle.selftest_count.specs.steps.Bounds.{AreBounded};

/// The counts of a run.
#[derive(Clone, Copy, Debug, PartialEq, Eq)]
pub struct Counts {
    /// The number of machine steps, including a return.
    pub steps: u32,
    /// The number of values in the location lists before each step, summed up.
    pub reads: u128,
    /// The number of parts of variables whose last assignment has a value, before each step, summed up.
    pub known: u128,
}

impl Counts {
    /// Zero counts.
    pub fn new() -> Counts
        ensures made { result ≡ record { steps = 0; reads = 0; known = 0 } }
        ensures bounded { AreBounded result }
    {
        Counts {
            steps: 0,
            reads: 0,
            known: 0,
        }
    }

    /// Counts a step, with the values in the location lists and those that are known before it.
    pub fn count(&mut self, reads: u128, known: usize)
        requires steps { self.old.steps + 1 < 2 ^ 32 }
        requires bounded { AreBounded self.old }
        requires reads { reads ≤ 2 ^ 95 }
        ensures counted { self.new ≡
            record { steps = self.old.steps + 1; reads = self.old.reads + reads; known = self.old.known + known } }
        ensures bounded { AreBounded self.new }
    {
        self.steps += 1;
        self.reads += reads;
        self.known += known as u128;
    }
}
