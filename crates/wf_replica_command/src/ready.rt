//! A replica that is ready to be served.

ghost use Rattle.std.specs.Prelude.{◌≡◌, []};
ghost use Rattle.wf_replica.specs.Follower.{answers_of, list_of, read_by};
ghost use Rattle.wf_replica.specs.LearnedList.{numbered};

use crate::plan::ReplicaPlan;
use wf_replica::Follower;
use wf_tape::Tape;

/// A replica that is ready to be served: its folder is locked and says that it is this replica's,
/// and it has what its tape has.
#[derive(Drop)]
pub(crate) struct ReadyReplica<T: Tape> {
    pub(crate) plan: ReplicaPlan,
    pub(crate) follower: Follower<T>,
    // the path of its tape
    pub(crate) tape: String,
    // the number of the source that it asks first, counted round
    pub(crate) first: usize,
    ghost unanswered: { answers_of follower ≡ [] },
    ghost read: { read_by follower ≡ numbered 1 (list_of follower) },
}
