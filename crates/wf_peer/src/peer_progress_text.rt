//! What was heard of the peers, as a text.
ghost use Rattle.std.specs.Prelude.{◌≡◌, ◌++◌, [], Some, OnOk};
ghost use Rattle.wf_peer.specs.PeerProgressText.{ArePeerProgress, IsPeerProgress, accusation_then, line_then, lines_of};

use crate::heard::Heard;
use crate::peer_progress::PeerProgress;
use crate::rejection::PeerRejection;
use std::alloc::{AllocError, Global};
use wf_folder::{push_mark_after, push_reach, push_word};

/// The first line: what the text is, and its version.
pub(crate) const FIRST_LINE: &[u8] = b"wfarm heard 2\n";

/// The line of a node of which nothing was heard.
pub(crate) const NOTHING_LINE: &[u8] = b"nothing\n";

/// The first line of version 1, which had no votes and no accusations.
pub(crate) const OLD_FIRST_LINE: &[u8] = b"wfarm heard 1\n";

impl PeerProgress {
    ghost use Rattle.std.specs.Prelude.{◌≡◌, IfOk, length};
    ghost use Rattle.wf_peer.specs.PeerProgressText.{ArePeerProgress, peer_progress_text};

    /// Its text: a line for each of 64 nodes, in their order. Numbers are in hexadecimal digits.
    /// The only error is allocation failure.
    ///
    /// ```text
    /// wfarm heard 2
    /// nothing
    /// mark 0123456789abcdef0123456789abcdef starts 00000003 life 8899aabbccddeeff0011223344556677
    ///  tried 00000007 promised 00000007 of 00000001 voted 00000007 of 00000001 at 0000000d
    ///  published 0000000c accused 00000008 (on one line)
    /// mark 00112233445566778899aabbccddeeff starts 00000001 life ffeeddccbbaa99887766554433221100
    ///  tried 00000000 nothing promised published 0000000b (on one line)
    /// ```
    pub fn text(&self, alloc: Global) -> Result<Vec<u8>, AllocError>
        ensures text { IfOk result (λ text. text.items ≡ peer_progress_text self.now) }
        ensures known { IfOk result (λ _. (length self.now ≡ 64) × ArePeerProgress self.now) }
    {
        let mut text = Vec::new(alloc);
        text.extend_from_slice(FIRST_LINE)?;
        push_lines(&mut text, &self.nodes)?;
        Ok(text)
    }
}

/// Appends a line for each node.
fn push_lines(text: &mut Vec<u8>, nodes: &[Option<Heard>]) -> Result<(), AllocError>
    ensures items { OnOk result (text.new.items ≡ text.old.items ++ lines_of nodes.now) }
    ensures known { OnOk result (ArePeerProgress nodes.now) }
{
    match nodes {
        [] => Ok(()),
        [node, rest @ ..] => {
            push_line(text, node)?;
            push_lines(text, rest)
        }
    }
}

/// Appends the line of a node.
#[tactic(auto, unfolding(crate::specs::PeerProgressText::line_then))]
fn push_line(text: &mut Vec<u8>, node: &Option<Heard>) -> Result<(), AllocError>
    ensures items { OnOk result (text.new.items ≡ text.old.items ++ line_then node.now []) }
    ensures known { OnOk result (IsPeerProgress node.now) }
{
    match node {
        None => text.extend_from_slice(NOTHING_LINE),
        Some(heard) => push_heard(text, heard),
    }
}

/// Appends the line of a node of which something was heard.
#[tactic(auto, using(crate::proofs::Lines::peer_progress_parts))]
fn push_heard(text: &mut Vec<u8>, heard: &Heard) -> Result<(), AllocError>
    ensures items { OnOk result (text.new.items ≡ text.old.items ++ line_then (Some heard.now) []) }
    ensures known { OnOk result (IsPeerProgress (Some heard.now)) }
{
    push_mark_after(text, b"mark ", heard.progress.mark)?;
    push_word(text, b" starts ", heard.progress.starts)?;
    push_mark_after(text, b" life ", heard.progress.life)?;
    push_reach(text, &heard.progress.reach())?;
    push_accusation(text, heard.accusation)?;
    Ok(())
}

/// Appends an accusation, if there is one, and the end of the line.
#[tactic(auto, using(crate::proofs::Lines::two_parts), unfolding(crate::specs::PeerProgressText::accusation_then))]
fn push_accusation(text: &mut Vec<u8>, accusation: Option<PeerRejection>) -> Result<(), AllocError>
    ensures { OnOk result (text.new.items ≡ text.old.items ++ accusation_then accusation []) }
{
    match accusation {
        None => text.extend_from_slice(b"\n"),
        Some(why) => {
            push_word(text, b" accused ", u32::from(why.byte()))?;
            text.extend_from_slice(b"\n")
        }
    }
}
