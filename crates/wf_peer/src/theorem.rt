//! Theorems about what is told of a node.
ghost use Rattle.wf_peer.specs.Greeting.{GreetingsAreAsLong};
ghost use Rattle.wf_peer.specs.Reported.{NoLessIsTransitive, StepsReportNoMore};

use wf_model::{records_fit, votes_are_promised};

/// Of a node that started from a tape of any records, or with none, and then handled any inputs and
/// restarted however often: its next transition takes back no round, promise and publication, and
/// the messages of that transition tell no more of the node than is stored by then, votes included.
/// A theorem: the call does nothing.
pub fn steps_report_no_more<V>()
    ensures { StepsReportNoMore V }
{
    records_fit::<V>();
    votes_are_promised::<V>();
}

/// A progress that is no less than one that is no less than a third is no less than the third. A
/// theorem: the call does nothing.
pub fn no_less_is_transitive()
    ensures { NoLessIsTransitive }
{}

/// Two greetings with which the same bytes begin are as long: so the bytes after a greeting are
/// these and no others. A theorem: the call does nothing.
#[tactic(auto, using(crate::proofs::Bodies::as_long))]
pub fn greetings_are_as_long()
    ensures { GreetingsAreAsLong }
{}
