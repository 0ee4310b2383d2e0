//! Theorems about the canonical text and its definition.

ghost use Rattle.std.specs.Prelude.{◌≡◌, ◌≤◌, length};
ghost use Rattle.wf_def.specs.Definition.{Definition};
ghost use Rattle.wf_def.specs.Limits.{IsWithinLimits};
ghost use Rattle.wf_mapfile.specs.Meaning.{Means};
ghost use Rattle.wf_spelling.specs.Canon.{canon, most_canon_bytes};
ghost use Rattle.wf_canon.specs.TextMeaning.{OneTextOneMap, Denotes};

use wf_spelling::MOST_CANON_BYTES;

/// The canonical text of a map means that map.
#[tactic(auto, using(crate::proofs::MeaningTheorem::canon_means))]
pub fn canonical_text_means_its_map()
    ensures { (d : Definition) → IsWithinLimits d → length (canon d) ≤ most_canon_bytes →
        Means (canon d) d }
{}

/// The canonical text of a map means that map, however long the text is.
pub fn every_canonical_text_denotes_its_map()
    ensures { (d : Definition) → IsWithinLimits d → Denotes (canon d) d }
{}

/// Two maps with the same canonical text are equal.
#[tactic(auto, using(crate::proofs::MeaningTheorem::one_definition))]
pub fn one_text_one_map()
    ensures { OneTextOneMap }
{}

/// The constant is the limit in the definitions.
pub fn limit_of_canonical_texts()
    ensures { MOST_CANON_BYTES ≡ most_canon_bytes }
{}
