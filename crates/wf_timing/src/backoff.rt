//! Waits that grow from try to try.
ghost use Rattle.std.specs.Prelude.{◌≡◌, ◌≤◌};
ghost use Rattle.wf_timing.specs.Waits.{IsBackoff, doubled, first_retry, longest_retry};

use wf_ballot::NodeId;

/// A node's first wait before a retry: this many milliseconds, and for each lower node as many as
/// `APART`.
const FIRST: u64 = 100;

const APART: u64 = 40;

/// How much longer than its first wait a node's longest is, in milliseconds: a round that is tried
/// again before its answers can come never succeeds, so this is more than what a slow one takes.
const MOST_LONGER: u64 = 10_000;

/// The wait before the next try, which doubles from try to try up to a limit.
#[derive(Clone, Copy, Debug, PartialEq, Eq)]
pub struct Backoff {
    /// The first wait, in milliseconds.
    pub first: u64,
    /// The longest one.
    pub limit: u64,
    /// The next one.
    pub wait: u64,
}

impl Backoff {
    /// The waits from `first` milliseconds up to `limit`.
    pub fn new(first: u64, limit: u64) -> Backoff
        requires { first ≤ limit }
        ensures first { result.first ≡ first }
        ensures limit { result.limit ≡ limit }
        ensures wait { result.wait ≡ first }
        ensures backoff { IsBackoff result }
    {
        Backoff {
            first,
            limit,
            wait: first,
        }
    }

    /// The wait before the next try, in milliseconds; the one after that is twice as long, up to
    /// the limit.
    pub fn wait(&mut self) -> u64
        ensures value { result ≡ self.old.wait }
        ensures next { self.new ≡ record self.old { wait = doubled self.old.limit self.old.wait } }
        ensures backoff { IsBackoff self.old → IsBackoff self.new }
    {
        let wait = self.wait;
        self.wait = wait.saturating_mul(2).min(self.limit);
        wait
    }

    /// Begins again with the first wait: a try succeeded.
    pub fn reset(&mut self)
        ensures value { self.new ≡ record self.old { wait = self.old.first } }
        ensures backoff { IsBackoff self.old → IsBackoff self.new }
    {
        self.wait = self.first;
    }
}

/// The waits before a node's running proposal is tried again: 100 ms and 40 more for each lower
/// node, doubled up to ten seconds more than that. A new proposal begins with the first.
pub fn retry_of(node: NodeId) -> Backoff
    ensures first { result.first ≡ first_retry node }
    ensures limit { result.limit ≡ longest_retry node }
    ensures wait { result.wait ≡ first_retry node }
    ensures backoff { IsBackoff result }
{
    let first = FIRST + APART * u64::from(node.number());
    Backoff::new(first, first + MOST_LONGER)
}
