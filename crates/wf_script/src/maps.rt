//! The maps of a script, by their names.

ghost use Rattle.std.specs.Char.{is_ascii_alphanumeric};
ghost use Rattle.std.specs.List.{list_all, position};
ghost use Rattle.std.specs.Option.{option_and_then};
ghost use Rattle.std.specs.Prelude.{◌≡◌, ◌<◌, ◌≤◌, ◌↔◌, length, IsTrue, option_copied, option_map, slice_get};
ghost use Rattle.wf_script.specs.Lines.{most_maps};
ghost use Rattle.wf_script.specs.ReadContract.{Gives};
ghost use Rattle.wf_script.specs.Script.{name as name_of, definition};
ghost use Rattle.wf_script.specs.Text.{is_name, map_of};
ghost use Rattle.std.specs.Str.{bytes_eq};
ghost use Rattle.wf_def.specs.Equality.{definition_eq};

use crate::fault::Wrong;
use std::alloc::{AllocError, Global};
use wf_canon::{Canon, CanonFault};
use wf_def::MapDef;
use wf_mapfile::MapFault;

/// The most maps of a script.
pub const MOST_MAPS: usize = 64;

/// The longest name of a map, in bytes.
const MOST_NAME_BYTES: usize = 32;

/// A definition and its name.
#[derive(Drop)]
pub(crate) struct Named {
    pub(crate) name: String,
    canon: Canon,
}

/// The maps so far, in their order in the script.
#[derive(Drop)]
pub(crate) struct Maps {
    pub(crate) named: Vec<Named>,
    ghost most: { length named.items ≤ most_maps },
}

impl Maps {
    ghost use Rattle.std.specs.Prelude.{◌++◌, ◌∷◌, [], OnOk, map};
    ghost use Rattle.wf_script.specs.Orders.{index_of};
    ghost use Rattle.wf_script.specs.Script.{index_with};

    pub(crate) fn new(alloc: Global) -> Maps
        ensures { result.named.items ≡ [] }
    {
        Maps {
            named: Vec::new(alloc),
        }
    }

    /// Is there no room for one more?
    pub(crate) fn is_full(&self) -> bool
        ensures { IsTrue result ↔ (length self.now.named.items ≡ most_maps) }
    {
        self.named.len() == MOST_MAPS
    }

    /// Adds a map after the others.
    pub(crate) fn add(&mut self, alloc: Global, name: &str, canon: Canon) -> Result<(), AllocError>
        requires { length self.old.named.items < most_maps }
        ensures names { OnOk result
            (map name_of self.new.named.items ≡ map name_of self.old.named.items ++ name.now ∷ []) }
        ensures maps { OnOk result (map definition self.new.named.items
            ≡ map definition self.old.named.items ++ canon ∷ []) }
    {
        match String::from_str(alloc, name) {
            Ok(name) => {
                self.named.push(Named { name, canon })?;
                Ok(())
            }
            Err(error) => {
                drop(canon);
                Err(error)
            }
        }
    }

    /// The number of the map of this name, counted from 0.
    #[tactic(auto, using(crate::proofs::MapNames::found_by_name))]
    pub(crate) fn number_of(&self, name: &str) -> Option<usize>
        ensures { result ≡ index_of (map name_of self.now.named.items) name.now }
    {
        number_of(&self.named, name)
    }

    /// The definition of the map of this number.
    pub(crate) fn canon(&self, number: usize) -> Option<&Canon>
        ensures { option_copied result ≡ slice_get (map definition self.now.named.items) number }
    {
        match self.named.get(number) {
            Some(map) => Some(&map.canon),
            None => None,
        }
    }

    /// The name of the first map with this definition.
    pub(crate) fn name_of(&self, meant: &MapDef) -> Option<&str>
        ensures { option_copied result
            ≡ option_and_then (slice_get (map name_of self.now.named.items))
            (index_with (map definition self.now.named.items) meant.now) }
    {
        name_of(&self.named, meant)
    }
}

/// The number of the first map of this name, counted from 0.
fn number_of(maps: &[Named], name: &str) -> Option<usize>
    ensures { result ≡ position (λ map. bytes_eq (name_of map) name.now) maps.now }
{
    maps.iter().position(|map| is_named(map, name))
}

/// The name of the first map with this definition.
fn name_of<'m>(maps: &'m [Named], meant: &MapDef) -> Option<&'m str>
    ensures { option_copied result ≡ option_map name_of (option_and_then (slice_get maps.now)
        (position (λ named. definition_eq (definition named) meant.now) maps.now)) }
{
    match maps.get(number_with(maps, meant)?) {
        Some(named) => Some(named.name.as_str()),
        None => None,
    }
}

/// The number of the first map with this definition, counted from 0.
fn number_with(maps: &[Named], meant: &MapDef) -> Option<usize>
    ensures { result ≡ position (λ named. definition_eq (definition named) meant.now) maps.now }
{
    maps.iter().position(|named| means(named, meant))
}

/// Has the map this definition?
fn means(named: &Named, meant: &MapDef) -> bool
    ensures { result ≡ definition_eq (definition named.now) meant.now }
{
    named.canon.def() == meant
}

/// Has the map this name?
fn is_named(map: &Named, name: &str) -> bool
    ensures { result ≡ bytes_eq (name_of map.now) name.now }
{
    map.name.as_str() == name
}

/// Is it a name of a map: 1 to 32 letters and digits?
#[tactic(auto, unfolding(crate::specs::Text::is_name))]
pub(crate) fn is_name(word: &str) -> bool
    ensures { result ≡ is_name word.now }
{
    !word.is_empty() && word.len() <= MOST_NAME_BYTES && are_letters(word.as_bytes())
}

fn are_letters(word: &[u8]) -> bool
    ensures { result ≡ list_all is_ascii_alphanumeric word.now }
{
    word.iter().all(|byte| byte.is_ascii_alphanumeric())
}

/// The definition of a map's text.
#[tactic(auto, unfolding(crate::specs::Text::map_of))]
pub(crate) fn canon_of(alloc: Global, text: &[u8]) -> Result<Canon, Wrong>
    ensures { Gives (λ canon. canon) result (map_of text.now) }
{
    let map = match wf_mapfile::read(alloc, text) {
        Ok(map) => map,
        Err(MapFault::Memory) => return Err(Wrong::Memory),
        Err(_) => return Err(Wrong::BadMap),
    };
    let canon = Canon::of(alloc, &map);
    drop(map);
    match canon {
        Ok(canon) => Ok(canon),
        Err(CanonFault::Memory) => Err(Wrong::Memory),
        Err(_) => Err(Wrong::BadMap),
    }
}
