//! What the canonical text of a map that is too long has its bytes from.
ghost use Rattle.std.specs.Prelude.{◌≡◌, ℕ, List, IfOk, length};
ghost use Rattle.std.specs.String.{string_bytes};
ghost use Rattle.wf_check.specs.Message.{IsExcessMessage, excess_said};
ghost use Rattle.wf_spelling.specs.Canon.{canon, counted};

use crate::shown::Shown;
use std::alloc::{AllocError, Global};
use std::fmt::Write;
use wf_block::MapFault;
use wf_def::MapDef;
use wf_mapfile::read;
use wf_spelling::{MOST_CANON_BYTES, features_length, layer_length, text_length};

/// The sentence about a file whose map's canonical text is too long, and a line for each layer.
pub(crate) fn explain_excess(alloc: Global, file: &[u8]) -> Result<String, AllocError>
    ensures { IfOk result (λ text. IsExcessMessage file.now (string_bytes text)) }
{
    match read(alloc, file) {
        Ok(map) => {
            let text = explanation(alloc, &map);
            drop(map);
            text
        }
        Err(MapFault::Memory) => Err(AllocError),
        Err(_) => Ok(String::new(alloc)),
    }
}

/// The sentence about a map, and a line for each layer.
fn explanation(alloc: Global, map: &MapDef) -> Result<String, AllocError>
    ensures { IfOk result (λ text. (layers : List ℕ) ×
        (string_bytes text ≡ excess_said (counted (length (canon map.now))) layers)) }
{
    let layers = layer_lines(alloc, map)?;
    let text = excess_said(alloc, text_length(alloc, map), layers.as_str());
    drop(layers);
    text
}

/// The sentence about so many bytes, with these lines behind it.
fn excess_said(alloc: Global, length: usize, layers: &str) -> Result<String, AllocError>
    ensures { IfOk result (λ text. string_bytes text ≡ excess_said length layers.now) }
{
    let over = length.saturating_sub(MOST_CANON_BYTES);
    match format!(in alloc;
        "Found a map whose canonical text has {length} bytes, {over} too many. Allowed: at most {MOST_CANON_BYTES}; fewer points, digits or attributes, or two maps.{layers}"
    ) {
        Ok(text) => Ok(text),
        Err(error) => Err(error),
    }
}

/// A line for each layer: its bytes, and how many of them are its features'.
fn layer_lines(alloc: Global, map: &MapDef) -> Result<String, AllocError> {
    let mut lines = String::new(alloc);
    for index in 0..map.layer_count() {
        let (name, layer) = map.layer(index);
        let length = layer_length(alloc, name, layer);
        let name = Shown::Text(name.as_bytes());
        let features = layer.features();
        let count = features.len();
        let within = features_length(alloc, features);
        write!(
            lines,
            "\nLayer {name} has {length} bytes, {within} of them in {count} features."
        )?;
    }
    Ok(lines)
}
