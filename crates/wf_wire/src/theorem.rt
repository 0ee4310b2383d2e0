//! The theorem about the two ends of a connection.
ghost use Rattle.wf_wire.specs.Theorem.{OnlyPostedCome};

use wf_mail::only_sent_messages_come;
use wf_peer::greetings_are_as_long;

/// Where all bytes that had come on a connection are a beginning of what was sent on one, each
/// message that came was put into that one's outbox. A theorem about the definitions: the call does
/// nothing.
pub fn only_posted_messages_come()
    ensures { OnlyPostedCome }
{
    greetings_are_as_long();
    only_sent_messages_come();
}
