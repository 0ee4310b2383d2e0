//! WEB: at most one METADATA, and dropped keywords.
ghost use Rattle.std.specs.Prelude.{◌≡◌, Some, None, unwrap_or};
ghost use Rattle.wf_block.specs.ReadContract.{Gives};
ghost use Rattle.wf_mapfile.specs.Web.{no_metadata, web};

use crate::metadata::read_metadata;
use crate::slots::{Metadata, WebSlots};
use wf_block::{Block, MapFault, Parser, Slots, Token, fill_block, is_name, once};

impl Slots for WebSlots {
    ghost use Rattle.wf_mapfile.specs.declared.slots.WebSlots.{WebSlots as Value};
    ghost use Rattle.wf_mapfile.specs.Web.{web_put};

    ghost Settings = { Value };

    ghost settings = { λ slots. slots };

    ghost Within = { Unit {0} };

    ghost within = { λ _. tt };

    ghost put = { λ _. web_put };

    #[tactic(auto, unfolding(crate::specs::Web::web_put))]
    fn take(&mut self, keyword: Token<'_>, parser: &mut Parser<'_>) -> Result<(), MapFault> {
        let word = keyword.text;
        let byte_offset = keyword.byte_offset;
        if is_name(word, "METADATA") {
            once!(self.metadata, byte_offset, read_metadata(parser));
        } else if is_name(word, "IMAGEPATH") {
            once!(self.image_path, byte_offset, parser.text_there(), _ => ());
        } else if is_name(word, "IMAGEURL") {
            once!(self.image_url, byte_offset, parser.text_there(), _ => ());
        } else {
            return Err(MapFault::UnexpectedWord(byte_offset));
        }
        Ok(())
    }
}

impl WebSlots {
    /// The metadata of the slots; empty if there is none.
    fn fill(self) -> Metadata
        ensures { result ≡ unwrap_or self.metadata no_metadata }
    {
        let WebSlots {
            metadata,
            image_path: _,
            image_url: _,
        } = self;
        match metadata {
            Some(metadata) => metadata,
            None => Metadata::new(),
        }
    }
}

/// Reads a block up to its END (MapServer mapfile reference, WEB).
#[tactic(auto, unfolding(crate::specs::Web::web))]
pub fn read_web(parser: &mut Parser<'_>) -> Result<Metadata, MapFault>
    ensures { Gives (λ m. (m, parser.new)) result (web parser.old) }
{
    let mut slots = WebSlots::default();
    fill_block(parser, Block::Web, &mut slots)?;
    Ok(slots.fill())
}
