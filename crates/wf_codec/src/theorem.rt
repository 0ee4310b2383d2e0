ghost use Rattle.std.specs.Prelude.{◌≡◌};
ghost use Rattle.wf_codec.specs.KindTable.{most_body_bytes};
ghost use Rattle.wf_codec.specs.Encoding.{message_version, header_length};
ghost use Rattle.wf_codec.specs.Theorem.{OneSpelling, NoneBeginsAnother, NoneIsEmpty, IsLongestBody};

use crate::format::{BODY_BYTES, HEADER_BYTES, VERSION};
use wf_canon::one_text_one_map;

/// A message has exactly one encoding. A theorem about the definitions: the call does nothing.
pub fn one_spelling()
    ensures { OneSpelling }
{}

/// No message's encoding is a prefix of another's. A theorem about the definitions: the call does
/// nothing.
pub fn none_begins_another()
    ensures { NoneBeginsAnother }
{
    // Maps with equal texts are equal.
    one_text_one_map();
}

/// A message's encoding has at least one byte. A theorem about the definitions: the call does
/// nothing.
pub fn no_spelling_is_empty()
    ensures { NoneIsEmpty }
{}

/// The longest body is that of a Promise with four votes for the longest texts. A theorem about the
/// definitions: the call does nothing.
pub fn longest_body()
    ensures { IsLongestBody most_body_bytes }
{}

/// The constants are the numbers in the definitions. The call does nothing.
pub fn numbers_of_messages()
    ensures version { VERSION ≡ message_version }
    ensures header { HEADER_BYTES ≡ header_length }
    ensures body { BODY_BYTES ≡ most_body_bytes }
{}
