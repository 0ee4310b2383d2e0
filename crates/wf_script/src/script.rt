//! A script, read whole.

ghost use Rattle.std.specs.Prelude.{◌≡◌, ◌≤◌, ◌<◌, ◌↔◌, length, slice_get, option_map, option_copied, IsTrue, Err, None, IfOk, IfErr, OnOk, IfSome};
ghost use Rattle.wf_ballot.specs.Node.{most_nodes};
ghost use Rattle.wf_script.specs.Fault.{IsAtLine};
ghost use Rattle.wf_script.specs.Lines.{line_feeds, lines, most_script_bytes, most_lines, over_limit, total};
ghost use Rattle.wf_script.specs.ReadContract.{Gives, ReportsWithLine};
ghost use Rattle.wf_script.specs.Text.{head_from, nodes_of, script, script_of};

use crate::draft::ScriptDraft;
use crate::fault::{ScriptFault, Wrong};
use crate::limit::line_over;
use crate::lines::Lines;
use crate::maps::Maps;
use crate::order::Numbered;
use crate::words::{Words, is_skipped};
use std::alloc::Global;
use std::marker::Model;
use wf_ballot::NODES;
use wf_canon::Canon;
use wf_def::MapDef;

/// A script: how many nodes its farm has, its maps, and its orders with their lines.
pub struct Script {
    pub(crate) nodes: u8,
    pub(crate) maps: Maps,
    pub(crate) orders: Vec<Numbered>,
}

// Not derived, so that a crate above proves one call where it drops a script, and not each part of
// one anew.
impl Drop for Script {
    fn drop(self) {
        let Script {
            nodes: _,
            maps,
            orders,
        } = self;
        drop(maps);
        drop(orders);
    }
}

impl Model for Script {
    ghost use Rattle.std.specs.Prelude.{map};
    ghost use Rattle.std.specs.Coded.{codes};
    ghost use Rattle.wf_script.specs.Script.{name, Script, IsScript, definition, numbered};

    ghost Value = { Script };

    ghost coded = { Prim.hlevel codes };

    ghost view = { λ s. record {
      nodes = s.nodes;
      names = map name s.maps.named.items;
      maps = map definition s.maps.named.items;
      orders = map numbered s.orders.items;
    } };

    ghost invariant = { λ s. IsScript (record {
      nodes = s.nodes;
      names = map name s.maps.named.items;
      maps = map definition s.maps.named.items;
      orders = map numbered s.orders.items;
    }) };
}

impl Script {
    ghost use Rattle.std.specs.Prelude.{Some};
    ghost use Rattle.wf_script.specs.Script.{numbered, name_of};

    /// Reads a script. The limits of bytes and lines are checked first (S3), then the lines in
    /// order, a map at the line where it begins; on one line S2 comes before S3 before S4. A script
    /// without a line that isn't skipped is S2 at line 1. Allocation failure is S1, at the line
    /// where it happens, whatever the text is otherwise. Each error is at a line of the bytes, or
    /// at line 1 where they have none.
    #[tactic(auto, using(crate::proofs::LineCount::over_at, crate::proofs::LineCount::bytes_fit, crate::proofs::LineCount::lines_fit))]
    pub fn read(alloc: Global, bytes: &[u8]) -> Result<Script, ScriptFault>
        ensures value { ReportsWithLine (λ s. s) result (script_of bytes.now) }
        ensures bytes { OnOk result (length bytes.now ≤ most_script_bytes) }
        ensures lines { OnOk result (line_feeds bytes.now ≤ most_lines) }
        ensures over { IfSome
            (over_limit bytes.now) (λ line. result ≡ Err (ScriptFault.OverLimit line)) }
        ensures at { IfErr result (IsAtLine (length (lines bytes.now))) }
    {
        if let Some(line) = line_over(bytes) {
            return Err(ScriptFault::OverLimit(line));
        }
        read_lines(alloc, bytes)
    }

    /// How many nodes its farm has.
    pub fn nodes(&self) -> u8
        ensures value { result ≡ self.now.nodes }
        ensures some { 1 ≤ result }
        ensures most { result ≤ most_nodes }
    {
        self.nodes
    }

    /// How many orders it has.
    pub fn len(&self) -> usize
        ensures value { result ≡ length self.now.orders }
        ensures most { result ≤ most_lines }
    {
        self.orders.len()
    }

    /// Has it no order?
    pub fn is_empty(&self) -> bool
        ensures { IsTrue result ↔ (length self.now.orders ≡ 0) }
    {
        self.orders.is_empty()
    }

    /// The order of that number, counted from 0, with its line.
    pub fn order(&self, number: usize) -> Option<&Numbered>
        ensures { option_map (λ n. numbered n.now) result ≡ slice_get self.now.orders number }
    {
        self.orders.get(number)
    }

    /// The name of the first map with this definition; `?` where there is none.
    pub fn name_of(&self, meant: &MapDef) -> &str
        ensures { result.now ≡ name_of self.now (Some meant.now) }
    {
        match self.maps.name_of(meant) {
            Some(name) => name,
            None => "?",
        }
    }

    /// The definition of the map of that number, counted from 0.
    pub fn map(&self, number: usize) -> Option<&Canon>
        ensures { option_copied result ≡ slice_get self.now.maps number }
    {
        self.maps.canon(number)
    }
}

/// Reads a script that is over no limit.
#[tactic(auto, using(crate::proofs::Faults::at_line_of))]
fn read_lines(alloc: Global, bytes: &[u8]) -> Result<Script, ScriptFault>
    requires { length (lines bytes.now) ≤ most_lines }
    ensures value { ReportsWithLine (λ s. s) result
        (script (record { number = 0; left = lines bytes.now })) }
    ensures at { IfErr result (IsAtLine (length (lines bytes.now))) }
{
    let mut lines = Lines::new(bytes);
    let nodes = first_line(&mut lines)?;
    let mut draft = ScriptDraft::new(alloc);
    match draft.take_lines(alloc, &mut lines) {
        Ok(()) => {
            let ScriptDraft { maps, orders } = draft;
            Ok(Script {
                nodes,
                maps,
                orders,
            })
        }
        Err(fault) => {
            drop(draft);
            Err(fault)
        }
    }
}

/// The number of nodes, from the first line that isn't skipped.
#[tactic(auto, using(crate::proofs::Faults::wrong_at, crate::proofs::LineSteps::same_want, crate::proofs::LineSteps::head_line, crate::proofs::LineSteps::head_skipped, crate::proofs::LineSteps::no_head))]
fn first_line(lines: &mut Lines<'_>) -> Result<u8, ScriptFault>
    ensures value { ReportsWithLine (λ nodes. (nodes, lines.new)) result (head_from lines.old) }
    ensures nodes { IfOk result (λ nodes. (1 ≤ nodes) × (nodes ≤ most_nodes)) }
    ensures at { IfErr result (IsAtLine (total lines.old)) }
    ensures total { total lines.new ≡ total lines.old }
{
    while let Some(line) = lines.next() {
        if !is_skipped(line) {
            return match nodes(line) {
                Ok(nodes) => Ok(nodes),
                Err(wrong) => Err(wrong.at(lines.number())),
            };
        }
    }
    Err(ScriptFault::BadLine(1))
}

/// The N of `nodes N`, 1 to 64.
#[tactic(auto, unfolding(crate::specs::Text::nodes_of))]
fn nodes(line: &[u8]) -> Result<u8, Wrong>
    ensures value { Gives (λ nodes. nodes) result (nodes_of line.now) }
    ensures nodes { IfOk result (λ nodes. (1 ≤ nodes) × (nodes ≤ most_nodes)) }
{
    let mut words = Words::new(line);
    if words.text()? != "nodes" {
        return Err(Wrong::BadLine);
    }
    let nodes = words.number()?;
    words.end()?;
    if nodes == 0 || nodes > NODES as usize {
        return Err(Wrong::BadLine);
    }
    Ok(nodes as u8)
}
