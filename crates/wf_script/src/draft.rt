//! A script while it is read: its maps and orders so far.

ghost use Rattle.std.specs.Prelude.{◌≡◌, ◌≤◌, ◌+◌, length, map, IfErr, Some, None};
ghost use Rattle.wf_script.specs.Drafts.{Closes};
ghost use Rattle.wf_script.specs.Fault.{IsAtLine};
ghost use Rattle.wf_script.specs.Lines.{total};
ghost use Rattle.wf_script.specs.Script.{name};
ghost use Rattle.wf_script.specs.ReadContract.{Gives, ReadsFurther, ReportsWithLine};
ghost use Rattle.wf_script.specs.Text.{a_new_name, closed, line_on, map_on, nothing_meant, on_from, state, with_order};

use crate::fault::{ScriptFault, Wrong};
use crate::lines::Lines;
use crate::maps::{Maps, canon_of, is_name};
use crate::order::{Numbered, read_order};
use crate::verb::Verb;
use crate::words::{Words, ends_map, is_skipped};
use std::alloc::Global;

/// The maps so far, and the orders with their lines.
#[derive(Drop)]
pub(crate) struct ScriptDraft {
    pub(crate) maps: Maps,
    pub(crate) orders: Vec<Numbered>,
}

impl ScriptDraft {
    pub(crate) fn new(alloc: Global) -> ScriptDraft
        ensures { state result.maps.named.items result.orders.items
            ≡ nothing_meant }
    {
        ScriptDraft {
            maps: Maps::new(alloc),
            orders: Vec::new(alloc),
        }
    }

    /// Reads the lines that are left.
    #[tactic(auto, using(crate::proofs::Faults::wrong_at, crate::proofs::LineSteps::same_want, crate::proofs::LineSteps::one_line, crate::proofs::LineSteps::no_line))]
    pub(crate) fn take_lines(
        &mut self,
        alloc: Global,
        lines: &mut Lines<'_>,
    ) -> Result<(), ScriptFault>
        ensures value { ReportsWithLine
            (λ _. state self.new.maps.named.items self.new.orders.items) result
            (on_from None
            (state self.old.maps.named.items self.old.orders.items) lines.old) }
        ensures at { IfErr result (IsAtLine (total lines.old)) }
        ensures orders { length self.new.orders.items + length lines.new.left
            ≤ length self.old.orders.items + length lines.old.left }
    {
        while let Some(line) = lines.next() {
            let number = lines.number();
            if let Err(wrong) = self.take_line(alloc, line, lines) {
                return Err(wrong.at(number));
            }
        }
        Ok(())
    }

    /// Reads the line that was returned last; where a map begins there, the lines of the map too.
    #[tactic(auto, unfolding(crate::specs::Text::line_on, crate::specs::Text::line_means, crate::specs::Text::line_meaning, crate::specs::Text::meant_by, crate::specs::Text::map_on))]
    fn take_line(&mut self, alloc: Global, line: &[u8], lines: &mut Lines<'_>) -> Result<(), Wrong>
        ensures value { ReadsFurther lines.old.number result
            (line_on None
            (state self.old.maps.named.items self.old.orders.items)
            line.now lines.old)
            (on_from None
            (state self.new.maps.named.items self.new.orders.items) lines.new) }
        ensures total { total lines.new ≡ total lines.old }
        ensures left { length lines.new.left ≤ length lines.old.left }
        ensures orders { length self.new.orders.items ≤ length self.old.orders.items + 1 }
    {
        if is_skipped(line) {
            return Ok(());
        }
        let mut words = Words::new(line);
        match Verb::of(words.text()?) {
            Some(Verb::Map) => self.take_map(alloc, &mut words, lines),
            Some(verb) => self.take_order(alloc, verb, &mut words, lines.number()),
            None => Err(Wrong::BadLine),
        }
    }

    /// Reads an order, on the line of this number.
    #[tactic(auto, unfolding(crate::specs::Text::with_order))]
    fn take_order(
        &mut self,
        alloc: Global,
        verb: Verb,
        words: &mut Words<'_>,
        number: usize,
    ) -> Result<(), Wrong>
        ensures maps { self.new.maps ≡ self.old.maps }
        ensures value { Gives
            (λ _. state self.new.maps.named.items self.new.orders.items) result
            (with_order number
            (state self.old.maps.named.items self.old.orders.items) verb words.old) }
        ensures orders { length self.new.orders.items ≤ length self.old.orders.items + 1 }
    {
        let order = read_order(alloc, &self.maps, verb, words)?;
        self.orders.push(Numbered {
            line: number,
            order,
        })?;
        Ok(())
    }

    /// Reads a map: its name, and its lines up to `endmap`.
    #[tactic(auto, unfolding(crate::specs::Text::map_on))]
    fn take_map(
        &mut self,
        alloc: Global,
        words: &mut Words<'_>,
        lines: &mut Lines<'_>,
    ) -> Result<(), Wrong>
        ensures value { ReadsFurther lines.old.number result
            (map_on
            (state self.old.maps.named.items self.old.orders.items)
            words.old lines.old)
            (on_from None
            (state self.new.maps.named.items self.new.orders.items) lines.new) }
        ensures total { total lines.new ≡ total lines.old }
        ensures left { length lines.new.left ≤ length lines.old.left }
        ensures orders { self.new.orders ≡ self.old.orders }
    {
        let name = self.new_name(words)?;
        let text = text_of_map(alloc, lines)?;
        let closed = self.close(alloc, name, &text);
        drop(text);
        closed
    }

    /// The name of a map that begins: the last word of its line, which no map has yet.
    #[tactic(auto, unfolding(crate::specs::Text::a_new_name, crate::specs::Text::new_name))]
    fn new_name<'a>(&self, words: &mut Words<'a>) -> Result<&'a str, Wrong>
        ensures { Gives (λ name. name.now) result
            (a_new_name (map name self.now.maps.named.items) words.old) }
    {
        let name = words.text()?;
        words.end()?;
        if !is_name(name) || self.maps.number_of(name).is_some() {
            return Err(Wrong::BadLine);
        }
        Ok(name)
    }

    /// Adds the map of this name and text, where there is room.
    #[tactic(auto, unfolding(crate::specs::Text::closed))]
    fn close(&mut self, alloc: Global, name: &str, text: &[u8]) -> Result<(), Wrong>
        ensures value { Gives
            (λ _. state self.new.maps.named.items self.new.orders.items) result
            (closed name.now text.now
            (state self.old.maps.named.items self.old.orders.items)) }
        ensures orders { self.new.orders ≡ self.old.orders }
    {
        if self.maps.is_full() {
            return Err(Wrong::OverLimit);
        }
        let canon = canon_of(alloc, text)?;
        self.maps.add(alloc, name, canon)?;
        Ok(())
    }
}

/// The lines up to `endmap`, each with a line feed.
#[tactic(auto, using(crate::proofs::LineSteps::one_line, crate::proofs::LineSteps::map_ended, crate::proofs::LineSteps::map_goes_on, crate::proofs::LineSteps::never_ended))]
fn text_of_map(alloc: Global, lines: &mut Lines<'_>) -> Result<Vec<u8>, Wrong>
    ensures value { Closes (λ v. v.items) result lines.old lines.new }
    ensures total { total lines.new ≡ total lines.old }
    ensures left { length lines.new.left ≤ length lines.old.left }
{
    let mut text = Vec::new(alloc);
    while let Some(line) = lines.next() {
        if ends_map(line) {
            return Ok(text);
        }
        text.extend_from_slice(line)?;
        text.push(b'\n')?;
    }
    Err(Wrong::BadLine)
}
