//! Theorems about responses.
ghost use Rattle.std.specs.declared.alloc.Global.{Global};
ghost use Rattle.wf_edge.specs.Theorem.{EachQueryHasOnePage, EqualRequestsHaveEqualResponses};
ghost use Rattle.wf_edge.specs.Unavailable.{OnlyTheseAreUnavailable};

use wf_tape::Tape;
use wf_wms::{asked_maps_are_answered_alike, each_query_has_one_answer, texts_are_rejected_alike};

/// A query to the map service has exactly one page wherever the map that it asks for is the same:
/// at nodes that have published equally many maps, and, for a GetMap request for one sequence at
/// both, at nodes that have published more or fewer. A query that its text alone rejects has one
/// page at every node, and an exception has one page wherever it is the answer. A theorem: the call
/// does nothing.
pub fn each_query_has_one_page()
    ensures { EachQueryHasOnePage }
{
    each_query_has_one_answer();
    asked_maps_are_answered_alike();
    texts_are_rejected_alike();
}

/// Two nodes, or one node at two times, respond to the same request to the map service with the
/// same bytes, wherever the map that it asks for is the same or they reject it alike, and neither
/// responds with allocation failure. A theorem: the call does nothing.
pub fn equal_requests_have_equal_responses<T: Tape>()
    ensures { EqualRequestsHaveEqualResponses Global T.Tape }
{
    each_query_has_one_page();
}

/// Of the requests whose bytes are known only these may be answered with 503: one to the map
/// service; a publish whose body of at least one byte isn't read yet; one whose body is UTF-8
/// within the limit of a mapfile; and one whose step fails. A theorem: the call does nothing.
pub fn only_these_are_unavailable<T: Tape>()
    ensures { OnlyTheseAreUnavailable Global T.Tape }
{}
