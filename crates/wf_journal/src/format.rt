ghost use Rattle.std.specs.Prelude.{◌≡◌, ◌≤◌, option_map};
ghost use Rattle.wf_canon.specs.Canon.{most_canon_bytes};
ghost use Rattle.wf_frame.specs.Layout.{lengths_of};
ghost use Rattle.wf_frame.specs.Row.{layout_of};
ghost use Rattle.wf_journal.specs.KindTable.{kinds};

use crate::decoder::BODY_BYTES;
use crate::version::Version;
use wf_frame::{FrameFormat, Lengths};

/// The format of records.
pub struct RecordFormat;

impl FrameFormat for RecordFormat {
    ghost use Rattle.wf_journal.specs.Encoding.{format as format_of_records};
    ghost use Rattle.wf_journal.specs.FormatTheorems.{is_format as records_have_a_format};

    ghost format = { format_of_records };

    fn reads(version: u8) -> bool {
        Version::of_byte(version).is_some()
    }

    fn lengths(version: u8, kind: u8) -> Option<Lengths> {
        match Version::of_byte(version) {
            None => None,
            Some(version) => lengths(version.most_text(), kind),
        }
    }

    fn longest() -> usize {
        BODY_BYTES
    }

    ghost is_format = { records_have_a_format };
}

/// The lengths that a body can have, for a kind's byte, where a text has at most `most` bytes; None
/// if there is no such kind.
#[tactic(auto, unfolding(wf_frame::specs::Row::layout_of))]
fn lengths(most: usize, kind: u8) -> Option<Lengths>
    requires { most ≤ most_canon_bytes }
    ensures { result ≡ option_map lengths_of (layout_of (kinds most) kind) }
{
    match kind {
        1 => Some(Lengths { least: 4, most: 4 }),
        2 => Some(Lengths { least: 7, most: 7 }),
        3 => Some(Lengths {
            least: 8,
            most: 7 + most,
        }),
        4 => Some(Lengths {
            least: 3,
            most: 2 + most,
        }),
        _ => None,
    }
}
