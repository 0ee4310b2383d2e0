//! Questions about a farm, and their answers.

ghost use Rattle.wf_script.specs.Script.{name_of};
ghost use Rattle.std.specs.Prelude.{◌≡◌, OnOk, codes, length, option_copied};
ghost use Rattle.wf_learner.specs.History.{map_at};
ghost use Rattle.wf_play.specs.Session.{node_at};
ghost use Rattle.wf_play.specs.Report.{IsAppended, definition_line, no_node, proposal_line, published_line, published_word, sent_line, proposal_state_words};

use crate::session::Session;
use std::alloc::AllocError;
use std::fmt::Write;
use wf_ballot::{Seq, Slot};
use wf_canon::Canon;
use wf_def::MapDef;
use wf_farm::Farm;
use wf_node::Node;
use wf_proposer::ProposalState;
use wf_script::{FarmQuestion, Script};
use wf_tape::MemoryTape;

impl<'s> Session<'s> {
    ghost use Rattle.std.specs.Prelude.{◌≤◌, false, None, IfSome};
    ghost use Rattle.wf_ballot.specs.Sequence.{last_sequence};
    ghost use Rattle.wf_play.specs.Session.{IsPublishedInFarm};
    ghost use Rattle.wf_play.specs.Report.{answer_text};

    /// Appends the answer, one line.
    pub(crate) fn answer(&self, question: FarmQuestion, out: &mut String) -> Result<(), AllocError>
        ensures { OnOk result
            (IsAppended (answer_text self.now.script question self.now.farm) out.old out.new) }
    {
        match question {
            FarmQuestion::Published => write_published(&self.farm, out),
            FarmQuestion::Sent => write_sent(&self.farm, out),
            FarmQuestion::Proposal(node) => write_proposal(&self.farm, node, out),
            FarmQuestion::Definition(node, sequence) => {
                write_definition(self.script, &self.farm, node, sequence, out)
            }
            FarmQuestion::Same => self.write_same(out),
        }
    }

    fn write_same(&self, out: &mut String) -> Result<(), AllocError>
        ensures { OnOk result (IsAppended (codes "same\n") out.old out.new) }
    {
        match self.differ() {
            Some(slot) => {
                let number = slot.number();
                writeln!(out, "differ {number}")
            }
            None => out.push_str("same\n"),
        }
    }

    /// The least sequence under which two running nodes publish different maps. It is always None,
    /// by the contract of [`wf_farm::Farm::agree`].
    pub fn differ(&self) -> Option<Slot>
        ensures { result ≡ None }
    {
        for before in 0..self.highest() {
            if let Some(slot) = Slot::new(before + 1) {
                if self.differs(slot) {
                    return Some(slot);
                }
            }
        }
        None
    }

    /// The highest sequence that a running node published.
    fn highest(&self) -> u16
        ensures { result ≤ last_sequence }
    {
        let mut highest = 0;
        for number in 0..self.farm.size() {
            if let Some(node) = self.farm.node(number) {
                highest = node.published().number().max(highest);
            }
        }
        highest
    }

    /// Do two running nodes publish different maps at this slot?
    fn differs(&self, slot: Slot) -> bool
        ensures { result ≡ false }
    {
        match self.first_published(slot) {
            Some(known) => self.some_publish_another(slot, known),
            None => false,
        }
    }

    /// The map at this slot on the first running node that has published it.
    fn first_published(&self, slot: Slot) -> Option<&Canon>
        ensures { IfSome result (λ canon. IsPublishedInFarm self.now.farm slot canon.now) }
    {
        for number in 0..self.farm.size() {
            if let Some(canon) = self.published_by(number, slot) {
                return Some(canon);
            }
        }
        None
    }

    /// Does a running node publish a map at this slot that differs from this one, which some node
    /// publishes?
    fn some_publish_another(&self, slot: Slot, known: &Canon) -> bool
        requires { IsPublishedInFarm self.now.farm slot known.now }
        ensures { result ≡ false }
    {
        for number in 0..self.farm.size() {
            if let Some(canon) = self.published_by(number, slot) {
                if self.are_unequal(slot, known, canon) {
                    return true;
                }
            }
        }
        false
    }

    /// Are these two maps, both published at this slot, different?
    fn are_unequal(&self, slot: Slot, known: &Canon, canon: &Canon) -> bool
        requires known { IsPublishedInFarm self.now.farm slot known.now }
        requires canon { IsPublishedInFarm self.now.farm slot canon.now }
        ensures { result ≡ false }
    {
        // Theorem: only one map is published under one sequence.
        self.farm.agree();
        known.text() != canon.text()
    }

    /// The map that the node publishes at this slot, if it runs.
    fn published_by(&self, number: usize, slot: Slot) -> Option<&Canon>
        ensures { IfSome result (λ canon. IsPublishedInFarm self.now.farm slot canon.now) }
    {
        match self.farm.node(number) {
            Some(node) => node.history().canon(slot),
            None => None,
        }
    }
}

/// Each node's last published sequence, `-` for a stopped one.
fn write_published(farm: &Farm, out: &mut String) -> Result<(), AllocError>
    ensures { OnOk result (IsAppended (published_line farm.now.hosts) out.old out.new) }
{
    out.push_str("published")?;
    for number in 0..farm.size() {
        write_published_by(farm, number, out)?;
    }
    out.push_str("\n")
}

fn write_published_by(farm: &Farm, number: usize, out: &mut String) -> Result<(), AllocError>
    ensures { OnOk result (IsAppended (published_word (node_at farm.now number)) out.old out.new) }
{
    match farm.node(number) {
        Some(node) => {
            let published = node.published().number();
            write!(out, " {published}")
        }
        None => out.push_str(" -"),
    }
}

fn write_sent(farm: &Farm, out: &mut String) -> Result<(), AllocError>
    ensures { OnOk result (IsAppended (sent_line (length farm.now.sent)) out.old out.new) }
{
    let count = farm.sent_count();
    writeln!(out, "sent {count}")
}

fn write_proposal(farm: &Farm, number: usize, out: &mut String) -> Result<(), AllocError>
    ensures { OnOk result
        (IsAppended (proposal_line number (node_at farm.now number)) out.old out.new) }
{
    let Some(node) = farm.node(number) else {
        return write_no_node(out);
    };
    write!(out, "proposal {number} ")?;
    write_proposal_state(node.proposal(), out)
}

fn write_proposal_state(proposal_state: ProposalState, out: &mut String) -> Result<(), AllocError>
    ensures { OnOk result (IsAppended (proposal_state_words proposal_state) out.old out.new) }
{
    match proposal_state {
        ProposalState::None => out.push_str("none\n"),
        ProposalState::Running => out.push_str("running\n"),
        ProposalState::Published(slot) => {
            let number = slot.number();
            writeln!(out, "published {number}")
        }
        ProposalState::Overtaken(slot) => {
            let number = slot.number();
            writeln!(out, "overtaken {number}")
        }
    }
}

/// The name of the first equal map; `?` where there is none, or where the node hasn't published the
/// sequence.
fn write_definition(
    script: &Script,
    farm: &Farm,
    number: usize,
    sequence: usize,
    out: &mut String,
) -> Result<(), AllocError>
    ensures { OnOk result (IsAppended
        (definition_line script.now number sequence (node_at farm.now number)) out.old out.new) }
{
    let Some(node) = farm.node(number) else {
        return write_no_node(out);
    };
    let name = name_at(script, node, sequence);
    writeln!(out, "definition {number} {sequence} {name}")
}

/// The name of the map that the node publishes at the sequence, `?` where the script doesn't have
/// it.
fn name_at<'s>(script: &'s Script, node: &Node<MemoryTape>, sequence: usize) -> &'s str
    ensures { result.now ≡ name_of script.now (map_at node.now.parts.history sequence) }
{
    match published_at(node, sequence) {
        Some(map) => script.name_of(map),
        None => "?",
    }
}

/// The map that the node publishes at the sequence.
#[tactic(auto, using(crate::proofs::Report::unpublished))]
fn published_at<'n>(node: &'n Node<MemoryTape>, sequence: usize) -> Option<&'n MapDef>
    ensures { option_copied result ≡ map_at node.now.parts.history sequence }
{
    if sequence > node.published().number() as usize {
        return None;
    }
    node.definition(Seq::new(sequence as u16)?)
}

pub(crate) fn write_no_node(out: &mut String) -> Result<(), AllocError>
    ensures { OnOk result (IsAppended no_node out.old out.new) }
{
    out.push_str("no node\n")
}
