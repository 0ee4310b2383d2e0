//! The file `farm` of a replica's folder, and its text.
ghost use Rattle.std.specs.Prelude.{◌≡◌, IfOk};
ghost use Rattle.wf_replica.specs.FarmFile.{replica_text};

use std::alloc::{AllocError, Global};
use wf_folder::FarmName;

/// The first line: what the file is, and its version.
const FIRST_LINE: &[u8] = b"wfarm folder 1\n";

/// The line of the folder's kind.
const KIND_LINE: &[u8] = b"kind replica\n";

/// What the last line begins with.
const FARM_WORD: &[u8] = b"farm ";

/// The text of the file `farm` of a replica of this farm, three lines in ASCII. The only error is
/// allocation failure.
///
/// ```text
/// wfarm folder 1
/// kind replica
/// farm county
/// ```
#[tactic(auto, unfolding(crate::specs::FarmFile::replica_text))]
pub fn replica_text(alloc: Global, farm: &FarmName) -> Result<Vec<u8>, AllocError>
    ensures { IfOk result (λ text. text.items ≡ replica_text farm.now) }
{
    let mut text = Vec::new(alloc);
    text.extend_from_slice(FIRST_LINE)?;
    text.extend_from_slice(KIND_LINE)?;
    text.extend_from_slice(FARM_WORD)?;
    text.extend_from_slice(farm.text())?;
    text.extend_from_slice(b"\n")?;
    Ok(text)
}
