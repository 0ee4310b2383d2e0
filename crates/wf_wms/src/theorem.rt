//! Theorems about answers.
ghost use Rattle.wf_wms.specs.Answer.{
  AnswersAreDescriptions,
  AskedMapsAreAnsweredAlike,
  EachQueryHasAnAnswer,
  EachQueryHasOneAnswer,
};
ghost use Rattle.wf_wms.specs.CachedPictures.{GrowthKeepsAll};
ghost use Rattle.wf_wms.specs.Rejection.{SequencesAreRejectedAlike, TextsAreRejectedAlike};

/// A query has exactly one answer in all histories with the same map at the requested sequence: the
/// answer is a function of the update sequence, the query and that map, and of nothing else in the
/// history. A theorem: the call does nothing.
pub fn each_query_has_one_answer()
    ensures { EachQueryHasOneAnswer }
{
    wf_picture::there_is_one_image();
}

/// A query has an answer at each sequence that is published: so the definitions ask for nothing
/// that can't be. A theorem: the call does nothing.
pub fn each_query_has_an_answer()
    ensures { EachQueryHasAnAnswer }
{
    wf_picture::there_is_one_image();
}

/// A GetMap request for one published map (MAPSEQ) has the same answers from one history, whatever
/// the last sequence of the server that answers. A theorem: the call does nothing.
pub fn asked_maps_are_answered_alike()
    ensures { AskedMapsAreAnsweredAlike }
{}

/// A request that its text alone rejects has one answer, the report of that exception, at every
/// server: whatever maps it has published, and however many. A theorem: the call does nothing.
pub fn texts_are_rejected_alike()
    ensures { TextsAreRejectedAlike }
{}

/// A request that a check on its text and the server's sequence rejects, before any check looks at
/// a map, has one answer at every server of that sequence, whatever maps it has published: among
/// them a current or a later UPDATESEQUENCE, a MAPSEQ that isn't published, and a FORMAT that isn't
/// offered behind one that is. A theorem: the call does nothing.
pub fn sequences_are_rejected_alike()
    ensures { SequencesAreRejectedAlike }
{}

/// Apart from GetMap, the answer of a server is what [`crate::describe`] returns about the map of
/// its update sequence: so the service metadata of a preview is what `describe` returns at
/// sequence 1. A theorem: the call does nothing.
pub fn answers_are_descriptions()
    ensures { AnswersAreDescriptions }
{}

/// If each entry of a cache is its key's picture in a history, it is so in any history that extends
/// it. A theorem: the call does nothing.
pub fn cached_pictures_outlast_growth()
    ensures { GrowthKeepsAll }
{}
