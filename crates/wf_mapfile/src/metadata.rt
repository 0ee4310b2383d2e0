//! METADATA: pairs of texts.
ghost use Rattle.std.specs.Prelude.{◌≡◌, IfOk, None, length, string_bytes};
ghost use Rattle.std.specs.HashSet.{contains_text};
ghost use Rattle.wf_mapfile.specs.Metadata.{metadata};
ghost use Rattle.wf_block.specs.Grammar.{text};
ghost use Rattle.wf_block.specs.ReadContract.{Gives};
ghost use Rattle.wf_text.specs.Text.{IsText};
ghost use Rattle.wf_mapfile.specs.Pairs.{collect, keep, new_pair};
ghost use Rattle.wf_mapfile.specs.Web.{no_metadata};

use crate::slots::Metadata;
use std::collections::HashSet;
use wf_block::{Block, MapFault, Parser, keep};
use wf_text::Text;

impl Metadata {
    /// Nothing.
    pub fn new() -> Self
        ensures { result ≡ no_metadata }
    {
        Metadata {
            title: None,
            abstract_text: None,
            address: None,
        }
    }

    /// Stores the value of a pair whose key has a slot. The key is in lower case.
    #[tactic(auto, unfolding(crate::specs::Pairs::keep))]
    fn keep(&mut self, key: &str, value: Text)
        ensures { self.new ≡ keep self.old key.now value }
    {
        if key == "wms_title" {
            keep(&mut self.title, value);
        } else if key == "wms_abstract" {
            keep(&mut self.abstract_text, value);
        } else if key == "wms_onlineresource" {
            keep(&mut self.address, value);
        } else {
            drop(value);
        }
    }
}

/// Reads a block of pairs of texts up to its END (MapServer mapfile reference, METADATA). Keys are
/// compared without regard to ASCII letter case, and no key may come twice, whether its value is
/// kept or not.
pub fn read_metadata(parser: &mut Parser<'_>) -> Result<Metadata, MapFault>
    ensures { Gives (λ m. (m, parser.new)) result (metadata parser.old) }
{
    let outer = parser.enter(Block::Metadata);
    let kept = read_kept(parser)?;
    parser.leave(outer);
    Ok(kept)
}

/// Reads pairs up to END.
#[tactic(auto, using(crate::proofs::Pairs::metadata_read))]
fn read_kept(parser: &mut Parser<'_>) -> Result<Metadata, MapFault>
    ensures { Gives (λ m. (m, parser.new)) result (metadata parser.old) }
{
    let mut keys = HashSet::new(parser.alloc());
    let mut kept = Metadata::new();
    let read = read_pairs(parser, &mut keys, &mut kept);
    drop(keys);
    match read {
        Ok(()) => Ok(kept),
        Err(fault) => {
            drop(kept);
            Err(fault)
        }
    }
}

/// Reads pairs up to END, each with a key that differs from those before it, and stores their
/// values.
#[tactic(auto, using(crate::proofs::Pairs::collect_step, crate::proofs::Pairs::collect_past))]
fn read_pairs(
    parser: &mut Parser<'_>,
    keys: &mut HashSet<String>,
    kept: &mut Metadata,
) -> Result<(), MapFault>
    ensures { Gives (λ _. (kept.new, parser.new)) result
        (collect (λ key. contains_text keys.old key) kept.old (length parser.old) parser.old) }
{
    for _ in 0..parser.len() {
        if parser.is_at_end() {
            return parser.end();
        }
        let (key, value) = read_new_pair(parser, keys)?;
        kept.keep(key.as_str(), value);
        keys.insert(key)?;
    }
    Err(parser.missing_end())
}

/// Reads the key of a pair.
fn read_key<'a>(parser: &mut Parser<'a>) -> Result<&'a str, MapFault>
    ensures read { Gives (λ t. (t.now, parser.new)) result (text parser.old) }
    ensures within { IfOk result (λ t. IsText t.now) }
{
    let byte_offset = parser.byte_offset();
    parser.at_keyword(None);
    let key = parser.text_there()?;
    parser.at_keyword(Some(byte_offset));
    Ok(key)
}

/// Reads a pair whose key, in lower case, differs from these.
#[tactic(auto, unfolding(crate::specs::Pairs::new_pair))]
fn read_new_pair(
    parser: &mut Parser<'_>,
    keys: &HashSet<String>,
) -> Result<(String, Text), MapFault>
    ensures { Gives (λ pair. ((string_bytes pair.0, pair.1), parser.new)) result
        (new_pair (λ key. contains_text keys.now key) parser.old) }
{
    let byte_offset = parser.byte_offset();
    let text = read_key(parser)?;
    let key = text.to_ascii_lowercase(parser.alloc())?;
    if keys.contains(key.as_str()) {
        drop(key);
        return Err(MapFault::Repeated(byte_offset));
    }
    match parser.text() {
        Ok(value) => Ok((key, value)),
        Err(fault) => {
            drop(key);
            Err(fault)
        }
    }
}
