//! Theorems about starts.
ghost use Rattle.wf_folder.specs.Admission.{StartsAreNotRejected};
ghost use Rattle.wf_folder.specs.NodeAdmission.{NodeStartsAreNotRejected};

/// No folder is both one on which a farm may start and one on which its start is rejected. A
/// theorem: the call does nothing.
pub fn no_start_is_admitted_and_rejected()
    ensures { StartsAreNotRejected }
{}

/// No folder is both one on which a node may start and one on which its start is rejected. A
/// theorem: the call does nothing.
pub fn no_node_start_is_admitted_and_rejected()
    ensures { NodeStartsAreNotRejected }
{}
