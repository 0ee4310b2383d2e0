ghost use Rattle.std.specs.Prelude.{◌≡◌, ◌+◌, ◌≤◌};
ghost use Rattle.wf_canon.specs.Canon.{most_canon_bytes};

use wf_canon::MOST_CANON_BYTES;
use wf_frame::{FrameFormat, Lengths};

/// The version of the messages that this crate reads and writes.
pub const VERSION: u8 = 2;

/// The number of bytes before a message's body: its version, its kind and the body's length.
pub const HEADER_BYTES: usize = wf_frame::HEADER_BYTES;

/// The most bytes of a body: those of a Promise with four votes for the longest texts.
pub const BODY_BYTES: usize = 8 + 4 * (10 + MOST_CANON_BYTES);

/// The format of messages.
pub struct MessageFormat;

impl FrameFormat for MessageFormat {
    ghost use Rattle.wf_codec.specs.Encoding.{format as format_of_messages};
    ghost use Rattle.wf_codec.specs.FormatTheorems.{is_format as messages_have_a_format};

    ghost format = { format_of_messages };

    fn reads(version: u8) -> bool {
        version == VERSION
    }

    #[tactic(auto, unfolding(wf_frame::specs::Row::layout_of))]
    fn lengths(_version: u8, kind: u8) -> Option<Lengths> {
        match kind {
            1 => Some(exactly(7)),
            2 => Some(Lengths {
                least: 9,
                most: BODY_BYTES,
            }),
            3 => Some(text_behind(7)),
            4 => Some(exactly(8)),
            5 => Some(exactly(13)),
            6 => Some(text_behind(2)),
            7 => Some(exactly(2)),
            _ => None,
        }
    }

    fn longest() -> usize {
        BODY_BYTES
    }

    ghost is_format = { messages_have_a_format };
}

/// The lengths of bodies of that many bytes.
fn exactly(bytes: usize) -> Lengths
    ensures { result ≡ record { least = bytes; most = bytes } }
{
    Lengths {
        least: bytes,
        most: bytes,
    }
}

/// The lengths of bodies of fields of that many bytes, and a canonical text.
fn text_behind(fields: usize) -> Lengths
    requires { fields ≤ 7 }
    ensures { result ≡ record { least = fields + 1; most = fields + most_canon_bytes } }
{
    Lengths {
        least: fields + 1,
        most: fields + MOST_CANON_BYTES,
    }
}
