//! Lists of entries between commas (OGC 06-042, 6.8.2).
ghost use Rattle.std.specs.Prelude.{◌≡◌, ◌∷◌, [], length, MatchOption, option_map};
ghost use Rattle.wf_wms.specs.MapRequest.{entries, four_of};

/// The first entry, and the list of the others if there is a comma.
fn cut(text: &str) -> Option<(&str, &str)>
    ensures { MatchOption result (entries text.now ≡ text.now ∷ [])
        (λ cut. entries text.now ≡ cut.0.now ∷ entries cut.1.now) }
{
    text.split_once(',')
}

/// The number of entries.
#[tactic(auto, unfolding(crate::specs::MapRequest::entries))]
pub(crate) fn count_entries(text: &str) -> usize
    ensures { result ≡ length (entries text.now) }
{
    text.as_bytes().split(|byte| *byte == b',').count()
}

/// The entries, if there are four.
pub(crate) fn four_entries(text: &str) -> Option<(&str, &str, &str, &str)>
    ensures { option_map (λ four. (four.0.now, four.1.now, four.2.now, four.3.now)) result
        ≡ four_of (entries text.now) }
{
    let (first, rest) = cut(text)?;
    let (second, rest) = cut(rest)?;
    let (third, fourth) = cut(rest)?;
    match cut(fourth) {
        None => Some((first, second, third, fourth)),
        Some(_) => None,
    }
}
