//! Scripts: first the maps that they name, then calls, one a line.
//!
//! ```text
//! map NAME            the lines of a canonical text follow, and then a line `endmap`
//! CALL WORDS          a call and its arguments, in their order: a slot, a node, a round or a
//!                     sequence is its number, a ballot its round and its node, a map its name
//! ```
use std::alloc::Global;
use wf_canon::{Canon, CanonFault};
use wf_test_table::{CaseWords, Unanswered};

/// The line after each map.
const END: &str = "endmap\n";

/// The maps of a script.
#[derive(Clone, Copy)]
pub struct CallMaps<'a> {
    script: &'a str,
}

/// Where a definition comes from.
#[derive(Clone, Copy)]
pub enum Definitions<'a> {
    /// The next word is the name of a map.
    Named(CallMaps<'a>),
    /// This canonical text is the only one.
    Text(&'a [u8]),
}

impl Definitions<'_> {
    /// The definition that comes next in the words.
    pub fn next(self, alloc: Global, words: &mut CaseWords<'_>) -> Result<Canon, Unanswered> {
        match self {
            Definitions::Named(maps) => maps.canon(alloc, words.word()),
            Definitions::Text(text) => canon_of(alloc, text),
        }
    }
}

/// A script's maps and its calls.
#[derive(Clone, Copy)]
pub struct CallScript<'a> {
    pub maps: CallMaps<'a>,
    pub calls: &'a str,
}

/// The script that an input is.
pub fn read_script(input: &[u8]) -> Result<CallScript<'_>, Unanswered> {
    match str::from_utf8(input) {
        Ok(script) => Ok(CallScript {
            maps: CallMaps { script },
            calls: calls_of(script),
        }),
        Err(_) => Err(Unanswered::BadWords),
    }
}

/// The definition of a canonical text.
pub fn canon_of(alloc: Global, text: &[u8]) -> Result<Canon, Unanswered> {
    match Canon::from_bytes(alloc, text) {
        Ok(canon) => Ok(canon),
        Err(CanonFault::Memory) => Err(Unanswered::Memory),
        Err(_) => Err(Unanswered::BadWords),
    }
}

/// What follows the last map.
fn calls_of(script: &str) -> &str {
    match script.rsplit_once(END) {
        Some((_, calls)) => calls,
        None => script,
    }
}

/// The name and the text of a map, given without the line after it.
fn split_name(map: &str) -> Option<(&str, &str)> {
    map.strip_prefix("map ")?.split_once('\n')
}

impl<'a> CallMaps<'a> {
    /// No map.
    pub const NONE: CallMaps<'static> = CallMaps { script: "" };

    /// The map of a name.
    pub fn canon(self, alloc: Global, name: &str) -> Result<Canon, Unanswered> {
        match self.text_of(name) {
            Some(text) => canon_of(alloc, text.as_bytes()),
            None => Err(Unanswered::BadWords),
        }
    }

    /// The text of the map of a name.
    pub fn text_of(self, name: &str) -> Option<&'a str> {
        for map in self.script.split(END) {
            if let Some((known, text)) = split_name(map) {
                if known == name {
                    return Some(text);
                }
            }
        }
        None
    }

    /// The name of the map that has this text.
    pub fn name_of(self, text: &[u8]) -> Option<&'a str> {
        for map in self.script.split(END) {
            if let Some((name, known)) = split_name(map) {
                if known.as_bytes() == text {
                    return Some(name);
                }
            }
        }
        None
    }
}
