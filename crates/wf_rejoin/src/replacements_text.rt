//! What a node knows of replacements, as a text.
ghost use Rattle.std.specs.Prelude.{◌≡◌, ◌++◌, [], Some, OnOk};
ghost use Rattle.wf_rejoin.specs.Lines.{AreAll, lines_of};
ghost use Rattle.wf_rejoin.specs.ReplacementsText.{IsEntry, entry_line};

use crate::replacement::Replacement;
use crate::replacements::Replacements;
use std::alloc::{AllocError, Global};
use wf_folder::{push_mark_after, push_word};

/// The first line: what the text is, and its version.
pub(crate) const FIRST_LINE: &[u8] = b"wfarm replaced 1\n";

/// The line of a node of which no replacement is known.
pub(crate) const NOTHING_LINE: &[u8] = b"nothing\n";

impl Replacements {
    ghost use Rattle.std.specs.Prelude.{◌≡◌, IfOk, length};
    ghost use Rattle.wf_rejoin.specs.Lines.{AreAll};
    ghost use Rattle.wf_rejoin.specs.ReplacementsText.{IsEntry, replaced_text};

    /// Their text: a line for each of 64 nodes, in their order. Numbers are in hexadecimal digits.
    /// The only error is allocation failure.
    ///
    /// ```text
    /// wfarm replaced 1
    /// nothing
    /// nothing
    /// count 00000001 mark 0123456789abcdef0123456789abcdef
    /// ```
    pub fn text(&self, alloc: Global) -> Result<Vec<u8>, AllocError>
        ensures text { IfOk result (λ text. text.items ≡ replaced_text self.now) }
        ensures known { IfOk result (λ _. (length self.now ≡ 64) × AreAll IsEntry self.now) }
    {
        let mut text = Vec::new(alloc);
        text.extend_from_slice(FIRST_LINE)?;
        push_entries(&mut text, &self.nodes)?;
        Ok(text)
    }
}

/// Appends a line for each node.
#[tactic(auto, using(crate::proofs::Entries::no_more_entries, crate::proofs::Entries::none_are_entries, crate::proofs::Entries::one_entry_more, crate::proofs::Entries::one_more_is_entry))]
fn push_entries(text: &mut Vec<u8>, nodes: &[Option<Replacement>]) -> Result<(), AllocError>
    ensures items { OnOk result (text.new.items ≡ text.old.items ++ lines_of entry_line nodes.now) }
    ensures known { OnOk result (AreAll IsEntry nodes.now) }
{
    match nodes.split_first() {
        None => Ok(()),
        Some((node, rest)) => {
            push_entry(text, node)?;
            push_entries(text, rest)
        }
    }
}

/// Appends the line of a node.
#[tactic(auto, unfolding(crate::specs::ReplacementsText::entry_line))]
fn push_entry(text: &mut Vec<u8>, node: &Option<Replacement>) -> Result<(), AllocError>
    ensures items { OnOk result (text.new.items ≡ text.old.items ++ entry_line node.now []) }
    ensures known { OnOk result (IsEntry node.now) }
{
    match node {
        None => text.extend_from_slice(NOTHING_LINE),
        Some(replacement) => push_replacement(text, replacement),
    }
}

/// Appends the line of a node of which a replacement is known.
#[tactic(auto, using(crate::proofs::Entries::entry_parts))]
fn push_replacement(text: &mut Vec<u8>, replacement: &Replacement) -> Result<(), AllocError>
    ensures items { OnOk result (text.new.items ≡
        text.old.items ++ entry_line (Some replacement.now) []) }
    ensures known { OnOk result (IsEntry (Some replacement.now)) }
{
    let Replacement { count, mark } = *replacement;
    push_word(text, b"count ", count)?;
    push_mark_after(text, b" mark ", mark)?;
    text.extend_from_slice(b"\n")?;
    Ok(())
}
