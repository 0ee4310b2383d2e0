//! MAP: a map's definition.
ghost use Rattle.std.specs.Prelude.{◌≡◌, [], None, IfOk, codes, length, nat_lt, unwrap_or};
ghost use Rattle.wf_mapfile.specs.Map.{definition, extent, map, map_dropped, map_of, map_once, no_map, projection, projection_named, two_numbers};
ghost use Rattle.wf_block.specs.ReadContract.{Gives, Passes};
ghost use Rattle.wf_mapfile.specs.Web.{no_metadata};
ghost use Rattle.wf_def.specs.Limit.{most_layers};

use crate::layer::read_layer;
use crate::slots::{MapDropped, MapOnce, MapSlots, Metadata};
use crate::web::read_web;
use std::alloc::{AllocError, Global};
use wf_block::{
    Block, MapFault, Parser, Slots, Token, choose, fill_block, is_name, once, text_or,
    text_or_empty,
};
use wf_class::read_color;
use wf_def::{Extent, MapDef, Projection};
use wf_feature::Layers;
use wf_text::Text;

/// The name of a map without NAME.
const DEFAULT_NAME: &str = "map";

/// The address of a service without one.
const DEFAULT_ADDRESS: &str = "http://localhost/wms?";

impl Slots for MapSlots {
    ghost use Rattle.wf_mapfile.specs.declared.slots.MapSlots.{MapSlots as Value};
    ghost use Rattle.wf_mapfile.specs.Map.{map_put};

    ghost Settings = { Value };

    ghost settings = { λ slots. slots };

    ghost Within = { Unit {0} };

    ghost within = { λ _. tt };

    ghost put = { λ _. map_put };

    #[tactic(auto, unfolding(crate::specs::Map::map_put))]
    fn take(&mut self, keyword: Token<'_>, parser: &mut Parser<'_>) -> Result<(), MapFault> {
        if is_name(keyword.text, "LAYER") {
            layer_room(&self.layers)?;
            let read = read_layer(parser, &self.layers)?;
            self.layers.push(read)?;
        } else {
            self.single.take(keyword, parser)?;
        }
        Ok(())
    }
}

impl MapOnce {
    /// The first keyword that is required and hasn't come.
    fn lacking(&self) -> Option<&'static str> {
        if self.extent.is_none() {
            Some("EXTENT")
        } else if self.projection.is_none() {
            Some("PROJECTION")
        } else {
            None
        }
    }

    /// Reads the arguments of a keyword that comes at most once, and stores them.
    #[tactic(auto, unfolding(crate::specs::Map::map_once))]
    fn take(&mut self, keyword: Token<'_>, parser: &mut Parser<'_>) -> Result<(), MapFault>
        ensures { Gives (λ _. (self.new, parser.new)) result
            (map_once self.old keyword.entry.text.now parser.old) }
    {
        let word = keyword.text;
        let byte_offset = keyword.byte_offset;
        if is_name(word, "NAME") {
            once!(self.name, byte_offset, parser.text());
        } else if is_name(word, "EXTENT") {
            once!(self.extent, byte_offset, read_extent(parser, byte_offset));
        } else if is_name(word, "PROJECTION") {
            once!(self.projection, byte_offset, read_projection(parser));
        } else if is_name(word, "WEB") {
            once!(self.web, byte_offset, read_web(parser));
        } else {
            self.dropped.take(keyword, parser)?;
        }
        Ok(())
    }
}

impl MapDropped {
    /// Reads the arguments of a dropped keyword, and stores that it came.
    #[tactic(auto, unfolding(crate::specs::Map::map_dropped))]
    fn take(&mut self, keyword: Token<'_>, parser: &mut Parser<'_>) -> Result<(), MapFault>
        ensures { Gives (λ _. (self.new, parser.new)) result
            (map_dropped self.old keyword.entry.text.now parser.old) }
    {
        let word = keyword.text;
        let byte_offset = keyword.byte_offset;
        if is_name(word, "SIZE") {
            once!(self.size, byte_offset, read_two_numbers(parser));
        } else if is_name(word, "IMAGECOLOR") {
            once!(self.image_color, byte_offset, read_color(parser), _ => ());
        } else if is_name(word, "UNITS") {
            once!(self.units, byte_offset, parser.text_there(), _ => ());
        } else if is_name(word, "STATUS") {
            once!(self.status, byte_offset, parser.text_there(), _ => ());
        } else if is_name(word, "IMAGETYPE") {
            once!(self.image_type, byte_offset, parser.text_there(), _ => ());
        } else if is_name(word, "SHAPEPATH") {
            once!(self.shape_path, byte_offset, parser.text_there(), _ => ());
        } else {
            return Err(MapFault::UnexpectedWord(byte_offset));
        }
        Ok(())
    }
}

/// Rejects another layer if there is no room for it.
fn layer_room(layers: &Layers) -> Result<(), MapFault>
    ensures { Passes (nat_lt (length layers.now) most_layers) result }
{
    if layers.is_full() {
        return Err(MapFault::TooMany);
    }
    Ok(())
}

impl MapSlots {
    fn new(alloc: Global) -> Self
        ensures { result ≡ no_map }
    {
        MapSlots {
            layers: Layers::new(alloc),
            single: MapOnce::default(),
        }
    }

    /// The map of the slots, with defaults for absent ones.
    #[tactic(auto, unfolding(crate::specs::Map::map_of, crate::specs::Map::definition))]
    fn fill(self, alloc: Global) -> Result<MapDef, MapFault>
        ensures { Gives (λ d. d) result (map_of self) }
    {
        let Some(extent) = self.single.extent else {
            drop(self);
            return Err(MapFault::Missing);
        };
        let Some(projection) = self.single.projection else {
            drop(self);
            return Err(MapFault::Missing);
        };
        let MapSlots { layers, single } = self;
        let MapOnce {
            name,
            extent: _,
            projection: _,
            web,
            dropped: _,
        } = single;
        let name = match text_or(alloc, name, DEFAULT_NAME) {
            Ok(name) => name,
            Err(_) => {
                drop(layers);
                drop(web);
                return Err(MapFault::Memory);
            }
        };
        let ServiceTexts {
            title,
            abstract_text,
            address,
        } = match ServiceTexts::new(alloc, &name, web) {
            Ok(service) => service,
            Err(_) => {
                drop(layers);
                drop(name);
                return Err(MapFault::Memory);
            }
        };
        let map = MapDef::new(
            alloc,
            name,
            title,
            abstract_text,
            address,
            extent,
            projection,
        );
        match layers.into_map(map) {
            Ok(map) => Ok(map),
            Err(_) => Err(MapFault::Memory),
        }
    }
}

/// The texts of a map's service.
#[derive(Drop)]
struct ServiceTexts {
    title: Text,
    abstract_text: Text,
    address: Text,
}

impl ServiceTexts {
    /// The texts of the service of a map of this name, with defaults for absent ones.
    fn new(alloc: Global, name: &Text, web: Option<Metadata>) -> Result<Self, AllocError>
        ensures { let settings = unwrap_or web no_metadata in IfOk result (λ s. s ≡ record {
          title = unwrap_or settings.title name.now;
          abstract_text = unwrap_or settings.abstract_text [];
          address = unwrap_or settings.address (codes "http://localhost/wms?");
        }) }
    {
        let Metadata {
            title,
            abstract_text,
            address,
        } = match web {
            Some(web) => web,
            None => Metadata::new(),
        };
        let title = match title {
            Some(title) => title,
            None => name.clone()?,
        };
        let abstract_text = text_or_empty(alloc, abstract_text)?;
        let address = text_or(alloc, address, DEFAULT_ADDRESS)?;
        Ok(ServiceTexts {
            title,
            abstract_text,
            address,
        })
    }
}

/// Reads a map up to MAP's END (MapServer mapfile reference, MAP).
#[tactic(auto, unfolding(crate::specs::Map::map))]
pub fn read_map(parser: &mut Parser<'_>) -> Result<MapDef, MapFault>
    ensures { Gives (λ d. (d, parser.new)) result (map parser.old) }
{
    let mut slots = MapSlots::new(parser.alloc());
    fill_block(parser, Block::Map, &mut slots)?;
    parser.lacks(slots.single.lacking());
    slots.fill(parser.alloc())
}

/// Reads a width and a height, which may be any numbers.
#[tactic(auto, unfolding(crate::specs::Map::two_numbers))]
fn read_two_numbers(parser: &mut Parser<'_>) -> Result<(), MapFault>
    ensures { Gives (λ x. (x, parser.new)) result (two_numbers parser.old) }
{
    let _ = parser.number()?;
    let _ = parser.number()?;
    Ok(())
}

/// Reads a box (MapServer mapfile reference, EXTENT). If its minima aren't below its maxima, it is
/// out of range at the keyword.
#[tactic(auto, unfolding(crate::specs::Map::extent))]
fn read_extent(parser: &mut Parser<'_>, keyword: usize) -> Result<Extent, MapFault>
    ensures { Gives (λ e. (e, parser.new)) result (extent parser.old) }
{
    let minx = parser.number()?;
    let miny = parser.number()?;
    let maxx = parser.number()?;
    let maxy = parser.number()?;
    Extent::new(minx, miny, maxx, maxy).ok_or(MapFault::OutOfRange(keyword))
}

/// Reads a coordinate system up to its END (MapServer mapfile reference, PROJECTION).
#[tactic(auto, unfolding(crate::specs::Map::projection))]
fn read_projection(parser: &mut Parser<'_>) -> Result<Projection, MapFault>
    ensures { Gives (λ p. (p, parser.new)) result (projection parser.old) }
{
    let outer = parser.enter(Block::Projection);
    let byte_offset = parser.byte_offset();
    let text = parser.text_there()?;
    let projection = projection_named(text.as_bytes()).ok_or(MapFault::UnexpectedWord(
        byte_offset,
    ))?;
    parser.at_keyword(Some(byte_offset));
    parser.end()?;
    parser.leave(outer);
    Ok(projection)
}

/// The coordinate system that PROJECTION's text names.
#[tactic(auto, unfolding(crate::specs::Map::projection_named))]
fn projection_named(text: &[u8]) -> Option<Projection>
    ensures { result ≡ projection_named text.now }
{
    choose(
        &[
            ("init=epsg:4326", Projection::Epsg4326),
            ("init=epsg:3857", Projection::Epsg3857),
        ],
        text,
    )
}
