//! Theorems about digests.
ghost use Rattle.wf_digest.specs.Digest.{EqualDigestsMeanEqualHistories, EqualHistoriesHaveEqualDigests};

use wf_canon::one_text_one_map;

/// Histories that are equal up to a sequence have equal digests there. A theorem about the
/// definitions: the call does nothing.
pub fn equal_histories_have_equal_digests()
    ensures { EqualHistoriesHaveEqualDigests }
{}

/// Histories with equal digests at a sequence are equal up to it, unless two different texts have
/// one SHA-256. A theorem about the definitions: the call does nothing.
pub fn equal_digests_mean_equal_histories()
    ensures { EqualDigestsMeanEqualHistories }
{
    // Maps with equal texts are equal.
    one_text_one_map();
}
