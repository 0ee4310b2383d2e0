//! Theorems about streams of messages, whoever sends them.

ghost use Rattle.wf_mail.specs.StreamTheorem.{SplitOneWay, BreakOneWay, BreaksOrReads, JoinedReads, JoinedBreaks, StaysBroken};

/// A stream's bytes determine its messages and the rest, or its error. A theorem about the
/// definitions: the call does nothing.
pub fn streams_split_one_way()
    ensures one { SplitOneWay }
    ensures one_error { BreakOneWay }
    ensures apart { BreaksOrReads }
{}

/// Two pieces give what they give when joined: the messages of the one and then of the other, the
/// same rest, the same error. An error remains, whatever follows. A theorem about the definitions:
/// the call does nothing.
pub fn cuts_do_not_matter()
    ensures reads { JoinedReads }
    ensures breaks { JoinedBreaks }
    ensures stays { StaysBroken }
{}
