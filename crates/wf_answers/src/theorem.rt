//! Theorems about answers.
ghost use Rattle.wf_answers.specs.LateAnswers.{
  LateNacksAreNoNews,
  LatePromisesDoNotCount,
  LateVotesDoNotCount,
};
ghost use Rattle.wf_answers.specs.Offer.{
  EachOfferIsTaken,
  RequestsWithinTheOfferAreTaken,
  MetadataIsTheOffer,
};
ghost use Rattle.wf_answers.specs.XmlText.{EscapedTextsAreReadBack};
ghost use Rattle.wf_answers.specs.Senders.{OnlyNodesAnswer};

use wf_safety::kept_promises;

/// The service metadata of a map states its offer: the reference systems, the picture format, the
/// layers, the style and the maxima. GetMap's checks take exactly that: FORMAT and CRS are offered
/// ones, LAYERS lists at most as many names as the maximum, each an offered layer; STYLES has as
/// many entries, each empty or the offered style; WIDTH and HEIGHT are numbers from 1 to the
/// maxima. A theorem: the call does nothing.
pub fn what_is_offered_is_taken()
    ensures metadata { MetadataIsTheOffer }
    ensures taken { EachOfferIsTaken }
{}

/// Once VERSION and MAPSEQ are accepted, a GetMap request gets a picture iff what it asks for is
/// offered, STYLES may be absent, and BBOX and BGCOLOR pass their checks. A theorem: the call does
/// nothing.
pub fn requests_within_the_offer_are_taken()
    ensures { RequestsWithinTheOfferAreTaken }
{}

/// An escaped text is read back as the text, in an element and in an attribute's value (Extensible
/// Markup Language 1.0, 2.4, 2.11, 3.3.3, 4.1 and 4.6). A theorem: the call does nothing.
pub fn escaped_texts_are_read_back()
    ensures { EscapedTextsAreReadBack }
{}

/// A proposer that has begun a new attempt counts neither a majority's promises to the attempt
/// before nor its votes for it, and a late rejection of that attempt tells it nothing. A theorem:
/// the call does nothing.
pub fn late_answers_do_not_count()
    ensures promises { LatePromisesDoNotCount }
    ensures votes { LateVotesDoNotCount }
    ensures rejection { LateNacksAreNoNews }
{}

/// In a farm of n nodes only numbers below n promise, report a vote or vote: so whoever reported
/// the vote that a proposer carries on is a node. A theorem: the call does nothing.
pub fn only_nodes_answer<V>()
    ensures { OnlyNodesAnswer V }
{
    kept_promises::<V>();
}
