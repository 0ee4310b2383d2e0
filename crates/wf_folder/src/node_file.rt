//! The file `farm` of a folder that one node uses, and its text.
ghost use Rattle.std.specs.Prelude.{◌≡◌, ◌<◌, ◌++◌, [], Some, None, length, IfOk, OnOk, IfSome, SomeIff};
ghost use Rattle.wf_folder.specs.FarmFile.{IsNumberOfNodes};
ghost use Rattle.wf_folder.specs.NodeFile.{IsNodeFile, farm_line, known_then, last_start, node_end, node_line, node_text, raised_known, started, starts_line, suspended_then};
ghost use Rattle.wf_folder.specs.Reach.{IsKnown, IsReachNoLess, IsPromise, IsReach, IsVoteOrNone, nothing_known};

use crate::digest::push_digest;
use crate::farm_file::{push_mark, push_nodes};
use crate::name::FarmName;
use crate::number::push_number;
use crate::reach::{HighestVote, Known, Reach};
use crate::suspension::Suspension;
use crate::words::{push_mark_after, push_reach, push_word};
use std::alloc::{AllocError, Global};
use wf_ballot::{Ballot, Seq};

/// The first line: what the file is, and its version.
pub(crate) const NODE_FIRST_LINE: &[u8] = b"wfarm folder 2\n";

/// The line of the folder's kind: one node of a farm uses it.
pub(crate) const NODE_LINE: &[u8] = b"kind node\n";

/// What the file `farm` says of a folder that one node of a farm uses.
#[derive(Clone, Copy, Debug, PartialEq, Eq)]
pub struct NodeFile {
    /// The number of the node, from 0 on.
    pub node: u8,
    /// The number of the farm's nodes, 1 to 64.
    pub nodes: u8,
    /// How often the node started on this folder.
    pub starts: u32,
    /// How far the node is known to have been.
    pub known: Known,
    /// Who suspended the node, if anybody did.
    pub suspension: Option<Suspension>,
    /// The farm's name.
    pub farm: FarmName,
    /// Random bits by which the folder is distinguished from any other.
    pub mark: [u8; 16],
}

impl NodeFile {
    /// The file of a new folder, on which no node started yet.
    pub fn new(node: u8, nodes: u8, farm: FarmName, mark: [u8; 16]) -> NodeFile
        requires nodes { IsNumberOfNodes nodes }
        requires node { node < nodes }
        ensures file { IsNodeFile result }
        ensures node { result.node ≡ node }
        ensures nodes { result.nodes ≡ nodes }
        ensures starts { result.starts ≡ 0 }
        ensures known { result.known ≡ nothing_known }
        ensures suspension { result.suspension ≡ None }
        ensures farm { result.farm ≡ farm }
        ensures mark { result.mark ≡ mark }
    {
        NodeFile {
            node,
            nodes,
            starts: 0,
            known: nothing_known(),
            suspension: None,
            farm,
            mark,
        }
    }

    /// The file of the next start. None: there can be no further one.
    pub fn next_start(&self) -> Option<NodeFile>
        requires { IsNodeFile self.now }
        ensures value { SomeIff result (self.now.starts < last_start) (started self.now) }
        ensures file { IfSome result IsNodeFile }
    {
        let starts = self.starts.checked_add(1)?;
        Some(NodeFile { starts, ..*self })
    }

    /// The file once the node is known to have been so far, with the digest of its history up to
    /// what it has published: nothing that was known falls.
    #[tactic(auto, using(crate::proofs::Raised::is_known, crate::proofs::Raised::by_together, crate::proofs::Raised::claimed_by_together))]
    pub fn raise(&self, reach: &Reach, digest: [u8; 32]) -> NodeFile
        requires { IsNodeFile self.now }
        ensures value { result ≡
            record self.now { known = raised_known self.now.known reach.now digest } }
        ensures file { IsNodeFile result }
        ensures kept { IsReachNoLess self.now.known.reach result.known.reach }
        ensures raised { IsReachNoLess reach.now result.known.reach }
    {
        let known = raise_known(&self.known, reach, digest);
        NodeFile { known, ..*self }
    }

    /// The file once a peer has suspended the node.
    pub fn suspend(&self, suspension: Suspension) -> NodeFile
        requires { IsNodeFile self.now }
        ensures value { result ≡ record self.now { suspension = Some suspension } }
        ensures file { IsNodeFile result }
    {
        let _ = suspension.accuser.number();
        NodeFile {
            suspension: Some(suspension),
            ..*self
        }
    }

    /// The file once an operator has ended a suspension.
    pub fn clear(&self) -> NodeFile
        requires { IsNodeFile self.now }
        ensures value { result ≡ record self.now { suspension = None } }
        ensures file { IsNodeFile result }
    {
        NodeFile {
            suspension: None,
            ..*self
        }
    }

    /// The file's text, eight lines in ASCII, and one more where the node is suspended. The only
    /// error is allocation failure. Numbers but those of the node and the nodes are in hexadecimal
    /// digits, and so is the address of who suspended the node, in sixteen bytes.
    ///
    /// ```text
    /// wfarm folder 2
    /// kind node
    /// node 00
    /// nodes 03
    /// starts 0000000c
    /// known tried 00000007 promised 00000007 of 00000001 voted 00000007 of 00000001 at 0000000d
    ///  published 0000000c digest
    ///  0f1e2d3c4b5a69788796a5b4c3d2e1f00f1e2d3c4b5a69788796a5b4c3d2e1f0 (on one line)
    /// suspended by 00000001 at 00000000000000000000ffff0a000002 port 00001b58 cause 00000008
    /// farm county
    /// mark 0123456789abcdef0123456789abcdef
    /// ```
    pub fn text(&self, alloc: Global) -> Result<Vec<u8>, AllocError>
        requires { IsNodeFile self.now }
        ensures { IfOk result (λ text. text.items ≡ node_text self.now) }
    {
        let mut text = Vec::new(alloc);
        text.extend_from_slice(NODE_FIRST_LINE)?;
        text.extend_from_slice(NODE_LINE)?;
        push_node(&mut text, self.node)?;
        push_nodes(&mut text, self.nodes)?;
        push_starts(&mut text, self.starts)?;
        push_end(&mut text, self)?;
        Ok(text)
    }
}

/// Nothing is known of a new folder's node.
#[tactic(auto, using(crate::proofs::Raised::nothing_is_known))]
pub(crate) fn nothing_known() -> Known
    ensures value { result ≡ nothing_known }
    ensures known { IsKnown result }
{
    Known {
        reach: Reach {
            round: 0,
            promise: None,
            vote: None,
            published: Seq::new(0).unwrap(),
        },
        digest: [0; 32],
    }
}

/// What is known, raised to how far the node is.
fn raise_known(known: &Known, reach: &Reach, digest: [u8; 32]) -> Known
    ensures value { result ≡ raised_known known.now reach.now digest }
    ensures reach { IsReach reach.now }
    ensures digest { IsKnown known.now → IsKnown result }
{
    check_promise(reach.promise);
    check_vote(&reach.vote);
    let digest = if known.reach.published.number() < reach.published.number() {
        digest
    } else {
        known.digest
    };
    Known {
        reach: known.reach.together(reach),
        digest,
    }
}

/// A promise is in its range.
fn check_promise(promise: Option<Ballot>)
    ensures { IsPromise promise }
{
    if let Some(ballot) = promise {
        let _ = ballot.round();
    }
}

/// A vote is in its range.
fn check_vote(vote: &Option<HighestVote>)
    ensures { IsVoteOrNone vote.now }
{
    if let Some(vote) = vote {
        let _ = vote.ballot.round();
        let _ = vote.sequence.number();
    }
}

/// Appends the line with the number of the node, in two digits.
fn push_node(text: &mut Vec<u8>, node: u8) -> Result<(), AllocError>
    requires { node < 64 }
    ensures { OnOk result (text.new.items ≡ text.old.items ++ node_line node) }
{
    text.extend_from_slice(b"node ")?;
    text.extend_from_slice(&[b'0' + node / 10, b'0' + node % 10, b'\n'])
}

/// Appends the line with the number of starts, but for its end.
fn push_starts(text: &mut Vec<u8>, starts: u32) -> Result<(), AllocError>
    ensures { OnOk result (text.new.items ≡ text.old.items ++ starts_line starts) }
{
    text.extend_from_slice(b"starts ")?;
    push_number(text, starts)
}

/// Appends what follows the number of starts.
#[tactic(auto, using(crate::proofs::Ends::end_parts))]
fn push_end(text: &mut Vec<u8>, file: &NodeFile) -> Result<(), AllocError>
    requires { IsNodeFile file.now }
    ensures { OnOk result (text.new.items ≡ text.old.items ++ known_then file.now.known
        (node_end file.now.suspension file.now.farm file.now.mark)) }
{
    push_known(text, &file.known)?;
    push_suspension(text, &file.suspension)?;
    push_farm(text, &file.farm)?;
    push_mark(text, &file.mark)
}

/// Appends what is known of the node.
#[tactic(auto, using(crate::proofs::Ends::known_parts))]
fn push_known(text: &mut Vec<u8>, known: &Known) -> Result<(), AllocError>
    requires { length known.now.digest ≡ 32 }
    ensures { OnOk result (text.new.items ≡ text.old.items ++ known_then known.now []) }
{
    text.extend_from_slice(b"\nknown")?;
    push_reach(text, &known.reach)?;
    text.extend_from_slice(b" digest ")?;
    push_digest(text, &known.digest)
}

/// Appends who suspended the node, if anybody did.
#[tactic(auto, unfolding(crate::specs::NodeFile::suspended_then))]
fn push_suspension(text: &mut Vec<u8>, suspension: &Option<Suspension>) -> Result<(), AllocError>
    ensures { OnOk result (text.new.items ≡ text.old.items ++ suspended_then suspension.now []) }
{
    match suspension {
        None => text.extend_from_slice(b""),
        Some(suspension) => push_accuser(text, suspension),
    }
}

/// Appends who suspended the node.
#[tactic(auto, using(crate::proofs::Ends::suspension_parts))]
fn push_accuser(text: &mut Vec<u8>, suspension: &Suspension) -> Result<(), AllocError>
    ensures { OnOk result (text.new.items ≡
        text.old.items ++ suspended_then (Some suspension.now) []) }
{
    push_word(
        text,
        b"\nsuspended by ",
        u32::from(suspension.accuser.number()),
    )?;
    push_mark_after(text, b" at ", suspension.address.ip)?;
    push_word(text, b" port ", u32::from(suspension.address.port))?;
    push_word(text, b" cause ", u32::from(suspension.cause))
}

/// Appends the end of the line before, and the line with the farm's name.
fn push_farm(text: &mut Vec<u8>, farm: &FarmName) -> Result<(), AllocError>
    ensures { OnOk result (text.new.items ≡ text.old.items ++ farm_line farm.now) }
{
    text.extend_from_slice(b"\nfarm ")?;
    text.extend_from_slice(farm.text())?;
    text.extend_from_slice(b"\n")
}
