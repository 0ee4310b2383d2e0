//! The text of what a node knows of replacements is read.
ghost use Rattle.std.specs.Prelude.{◌≡◌, ◌≢◌, ◌≤◌, ℕ, List, Option, Some, length, IfNone, IfSome};
ghost use Rattle.wf_rejoin.specs.Lines.{ReadsLines};
ghost use Rattle.wf_rejoin.specs.ReplacementsText.{IsEntry, IsReplacementInRange, entry_line};
ghost use Rattle.wf_rejoin.specs.declared.replacement.Replacement.{Replacement as ReplacementValue};

use crate::fault::ReplacementsFault;
use crate::replacement::Replacement;
use crate::replacements::Replacements;
use crate::replacements_text::{FIRST_LINE, NOTHING_LINE};
use wf_folder::{after, split_named, split_word};

/// The number of lines, one a node after the first one.
const LINES: usize = 65;

impl Replacements {
    ghost use Rattle.std.specs.Prelude.{◌≡◌, List, Option, Ok, length, IfOk};
    ghost use Rattle.wf_rejoin.specs.Lines.{AreAll};
    ghost use Rattle.wf_rejoin.specs.ReplacementsText.{IsEntry, replaced_text};
    ghost use Rattle.wf_rejoin.specs.declared.replacement.Replacement.{Replacement as ReplacementValue};

    /// What a node knows, by its text. Err: the bytes aren't the text of any, and the first line at
    /// which they aren't.
    pub fn read(bytes: &[u8]) -> Result<Replacements, ReplacementsFault>
        ensures known { IfOk result (λ known. (length known ≡ 64) × AreAll IsEntry known) }
        ensures text { IfOk result (λ known. bytes.now ≡ replaced_text known) }
        ensures each { (known : List (Option ReplacementValue)) → length known ≡ 64 →
            AreAll IsEntry known → bytes.now ≡ replaced_text known → result ≡ Ok known }
    {
        let Some(rest) = after(bytes, FIRST_LINE) else {
            return Err(ReplacementsFault::Line(1));
        };
        let mut nodes = [None; 64];
        match read_entries(rest, &mut nodes) {
            Ok(()) => Ok(Replacements { nodes }),
            Err(fault) => Err(fault),
        }
    }
}

/// Reads a line for each node, and nothing is to follow.
#[tactic(auto, using(crate::proofs::Entries::no_entry, crate::proofs::Entries::one_entry))]
fn read_entries(bytes: &[u8], nodes: &mut [Option<Replacement>]) -> Result<(), ReplacementsFault>
    requires { length nodes.old ≤ 64 }
    ensures { ReadsLines IsEntry entry_line bytes.now (length nodes.old) nodes.new result }
{
    let line = LINES + 1 - nodes.len();
    let Some((node, others)) = nodes.split_first_mut() else {
        return if bytes.is_empty() {
            Ok(())
        } else {
            Err(ReplacementsFault::Line(line))
        };
    };
    let Some((known, rest)) = split_entry(bytes) else {
        return Err(ReplacementsFault::Line(line));
    };
    *node = known;
    read_entries(rest, others)
}

/// What the line says that bytes begin with, and what follows it.
#[tactic(auto, unfolding(crate::specs::ReplacementsText::entry_line))]
fn split_entry(bytes: &[u8]) -> Option<(Option<Replacement>, &[u8])>
    ensures known { IfSome result (λ x. IsEntry x.0) }
    ensures some { IfSome result (λ x. bytes.now ≡ entry_line x.0 x.1.now) }
    ensures none { IfNone result ((node : Option ReplacementValue) (rest : List ℕ) → IsEntry node →
        bytes.now ≢ entry_line node rest) }
{
    match after(bytes, NOTHING_LINE) {
        Some(rest) => Some((None, rest)),
        None => match split_replacement(bytes) {
            Some((replacement, rest)) => Some((Some(replacement), rest)),
            None => None,
        },
    }
}

/// The replacement of the node whose line bytes begin with, and what follows it.
fn split_replacement(bytes: &[u8]) -> Option<(Replacement, &[u8])>
    ensures known { IfSome result (λ x. IsReplacementInRange x.0) }
    ensures some { IfSome result (λ x. bytes.now ≡ entry_line (Some x.0) x.1.now) }
    ensures none { IfNone result ((r : ReplacementValue) (rest : List ℕ) → IsReplacementInRange r →
        bytes.now ≢ entry_line (Some r) rest) }
{
    let (count, rest) = split_word(bytes, b"count ")?;
    let (mark, rest) = split_named(rest, b" mark ")?;
    let rest = after(rest, b"\n")?;
    Some((Replacement { count, mark }, rest))
}
