//! Counts the calls of a stream in memory, which fail by their numbers.
ghost use Rattle.std.specs.Prelude.{◌≡◌, ◌≤◌};
ghost use Rattle.exact_time.specs.Causes.{Rose};

use exact_time::{Failed, Many};

/// How many calls there were, and which of them fail, from 1.
#[derive(Drop)]
pub struct Tally {
    fails: Many<u64>,
    calls: u64,
    faults: u64,
}

impl Tally {
    ghost use Rattle.streams.specs.Calls.{calls_of, fails_of, faults_of, fresh, one_more, is_to_fail};

    /// No call yet, of which those with these numbers fail.
    pub fn new(fails: Many<u64>) -> Self
        ensures { result ≡ fresh fails }
    {
        Tally {
            fails,
            calls: 0,
            faults: 0,
        }
    }

    /// How many calls failed.
    pub fn faults(&self) -> u64
        ensures { result ≡ faults_of self.now }
    {
        self.faults
    }

    /// Counts a call, and says whether it is one of those that fail.
    pub fn is_failing(&mut self) -> bool
        ensures numbered { result ≡ is_to_fail self.old }
        ensures calls { calls_of self.new ≡ one_more (calls_of self.old) }
        ensures fails { fails_of self.new ≡ fails_of self.old }
        ensures faults { faults_of self.new ≡ faults_of self.old }
    {
        let has_number = self.calls < u64::MAX;
        self.calls = self.calls.saturating_add(1);
        has_number && self.fails.as_slice().contains(&self.calls)
    }

    /// Fails, and counts it.
    pub fn refuse(&mut self) -> Failed
        ensures faults { faults_of self.new ≡ one_more (faults_of self.old) }
        ensures rose { Rose (faults_of self.old) (faults_of self.new) }
        ensures later { faults_of self.old ≤ faults_of self.new }
        ensures calls { calls_of self.new ≡ calls_of self.old }
        ensures fails { fails_of self.new ≡ fails_of self.old }
    {
        self.faults = self.faults.saturating_add(1);
        Failed
    }
}
