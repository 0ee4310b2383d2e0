//! What the runner counts.
ghost use Rattle.std.specs.Prelude.{◌≡◌, ◌<◌, ◌≤◌, true, false};

/// How a table's cases went.
#[derive(Clone, Copy)]
pub struct CaseCounts {
    /// Cases whose answer was compared with the expected one.
    pub cases: u64,
    /// Those of them whose answer was another one.
    pub differing: u64,
    /// Errors of the table: lines that can't be read, and cases that can't be asked.
    pub faults: u64,
}

impl CaseCounts {
    pub(crate) const NONE: CaseCounts = CaseCounts {
        cases: 0,
        differing: 0,
        faults: 0,
    };

    /// Counts a case, and returns whether the answer is the expected one.
    pub(crate) fn compare(&mut self, expected: &[u8], given: &[u8]) -> bool
        ensures same { result ≡ true → expected.now ≡ given.now }
        ensures counted { result ≡ false → 0 < self.new.differing }
        ensures kept { self.old.differing ≤ self.new.differing }
        ensures case_counted { 0 < self.new.cases }
        ensures faults_kept { self.new.faults ≡ self.old.faults }
    {
        self.cases = self.cases.saturating_add(1);
        if expected == given {
            return true;
        }
        self.differing = self.differing.saturating_add(1);
        false
    }

    /// Counts an error of the table.
    pub(crate) fn count_fault(&mut self)
        ensures counted { 0 < self.new.faults }
        ensures kept { self.new.differing ≡ self.old.differing }
    {
        self.faults = self.faults.saturating_add(1);
    }
}
