//! How far a node is, apart from its folder and start.
ghost use Rattle.std.specs.Prelude.{◌≡◌};
ghost use Rattle.wf_peer.specs.Progress.{at_reach, reach_of};

use crate::progress::Progress;
use wf_folder::Reach;

impl Progress {
    /// What a node says of itself: the mark of its folder, how often it started on it, the mark of
    /// this start, and how far it is.
    pub fn new(mark: [u8; 16], starts: u32, life: [u8; 16], reach: &Reach) -> Progress
        ensures mark { result.mark ≡ mark }
        ensures starts { result.starts ≡ starts }
        ensures life { result.life ≡ life }
        ensures reach { reach_of result ≡ reach.now }
    {
        Progress {
            mark,
            starts,
            life,
            round: reach.round,
            promise: reach.promise,
            vote: reach.vote,
            published: reach.published,
        }
    }

    /// What the same start of a node says once it is so far.
    pub fn at(&self, reach: &Reach) -> Progress
        ensures { result ≡ at_reach self.now reach.now }
    {
        Progress {
            round: reach.round,
            promise: reach.promise,
            vote: reach.vote,
            published: reach.published,
            ..*self
        }
    }

    /// How far the node is.
    pub fn reach(&self) -> Reach
        ensures { result ≡ reach_of self.now }
    {
        Reach {
            round: self.round,
            promise: self.promise,
            vote: self.vote,
            published: self.published,
        }
    }
}
