//! A theorem about waits.
ghost use Rattle.wf_timing.specs.Waits.{RetriesDifferByNode};

/// After equally many tries, the waits of two nodes before a retry are at least 40 ms apart, and
/// the higher node's is the longer. A theorem about the definitions: the call does nothing.
pub fn retries_differ_by_node()
    ensures { RetriesDifferByNode }
{}
