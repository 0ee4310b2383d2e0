//! Kept pictures.
ghost use Rattle.std.specs.Prelude.{◌≡◌, ◌≤◌, ◌<◌, ◌-◌, ◌∷◌, [], List, None, pos, take, true, false, IfNone, IfOk, IfSome, IsSome, OnErr, OnOk, OnSome};
ghost use Rattle.lru.specs.LruCache.{lru_cache};
ghost use Rattle.wf_def.specs.Definition.{Definition};
ghost use Rattle.wf_geometry.specs.Exact.{quotient};
ghost use Rattle.wf_geometry.specs.Limit.{shared_tiles};
ghost use Rattle.wf_wms.specs.CachedPictures.{most_cached, background_of, cache_of, entry_of, risen, AllCached, IsCellOf, IsCached, IsCutFromCache, IsTileAt, IsTileOf, IsUsed};

use crate::maps::MapSource;
use crate::plan::QueriedPicture;
use lru::LruCache;
use std::alloc::{AllocError, Global};
use std::marker::Model;
use std::num::NonZeroUsize;
use wf_def::Color;
use wf_geometry::{GridCell, SHARED_TILES, TILE_PIXELS, View};
use wf_learner::History;
use wf_paint::Pixmap;
use wf_picture::{Size, cut, draw_view, tiles_are_crops_of_one_picture};

/// The key of a picture that sixteen tiles are cut out of: its map, layers and background, and its
/// position in the grid.
#[derive(Drop, PartialEq, Eq, Hash)]
pub struct Key {
    /// The update sequence of the map.
    pub(crate) sequence: u16,
    /// The layers as requested, by their indices in the map, the lowest in the picture first.
    pub(crate) layers: Vec<usize>,
    /// The red of the background.
    pub(crate) red: u8,
    /// The green of the background.
    pub(crate) green: u8,
    /// The blue of the background.
    pub(crate) blue: u8,
    /// The level of the grid.
    pub(crate) level: u32,
    /// The index of its four columns at the level, counted from the grid's first.
    pub(crate) column: i64,
    /// The index of its four rows at the level, counted from the grid's first.
    pub(crate) row: i64,
}

/// The size of a tile.
const TILE: Size = Size {
    width: TILE_PIXELS,
    height: TILE_PIXELS,
};

/// A cache of pictures: each has 1,024 by 1,024 pixels of a map's grid, and sixteen tiles are cut
/// out of it. When it is full, the least recently used is dropped. It counts what was drawn, what
/// was taken and what couldn't be kept; a count stays at its highest.
#[derive(Drop)]
pub struct Cache {
    cached: LruCache<Key, Pixmap>,
    // how many pictures were drawn
    drawings: u64,
    // how many tiles were cut out of a picture that was kept
    taken: u64,
    // how many of the drawn pictures weren't kept, since an allocation failed
    unkept: u64,
}

impl Model for Cache {
    ghost use Rattle.wf_wms.specs.CachedPictures.{CacheValue, cache_of};

    ghost Value = { CacheValue };

    ghost view = { λ c. cache_of c.cached c.drawings c.taken c.unkept };
}

impl Cache {
    /// An empty cache for `capacity` pictures, 1 to 64, whose counts are 0. A picture takes 3 MB.
    /// Returns Ok unless allocation fails.
    pub fn new(alloc: Global, capacity: usize) -> Result<Self, AllocError>
        requires least { 1 ≤ capacity }
        requires most { capacity ≤ most_cached }
        ensures empty { IfOk result (λ cache. cache ≡ cache_of (lru_cache [] capacity) 0 0 0) }
        ensures capacity { IfOk result (λ cache. cache.cap ≡ capacity) }
        ensures cached { IfOk result (λ cache. (history : List Definition) →
            AllCached history cache) }
    {
        let capacity = NonZeroUsize::new(capacity).unwrap();
        Ok(Cache {
            cached: LruCache::new(alloc, capacity)?,
            drawings: 0,
            taken: 0,
            unkept: 0,
        })
    }

    /// How many pictures were drawn to be kept.
    pub fn drawings(&self) -> u64
        ensures { result ≡ self.now.drawings }
    {
        self.drawings
    }

    /// How many tiles were cut out of a picture that was kept, so that none was drawn.
    pub fn cached_tiles(&self) -> u64
        ensures { result ≡ self.now.taken }
    {
        self.taken
    }

    /// How many of the drawn pictures weren't kept, since an allocation failed.
    pub fn unkept(&self) -> u64
        ensures { result ≡ self.now.unkept }
    {
        self.unkept
    }

    /// The file of the tile of this key and view, cut out of the key's picture. If the picture
    /// isn't kept, it is drawn, and kept unless an allocation fails. An error leaves the cache
    /// unchanged.
    pub(crate) fn tile(
        &mut self,
        alloc: Global,
        history: &History,
        key: Key,
        view: &View,
    ) -> Result<Vec<u8>, AllocError>
        requires cached { AllCached history.now.definitions self.old }
        requires tile { IsTileAt history.now.definitions key view.now }
        ensures file { IfOk result
            (λ file. IsTileOf history.now.definitions key view.now file.items) }
        ensures cached { AllCached history.now.definitions self.new }
        ensures used { OnOk result (IsUsed key self.old self.new) }
        ensures unchanged { OnErr result (self.new ≡ self.old) }
        ensures capacity { self.new.cap ≡ self.old.cap }
    {
        match self.find(&key) {
            Some(pixmap) => {
                let file = cut(alloc, pixmap, view, TILE)?;
                self.touch(&key);
                Ok(file)
            }
            None => self.draw_kept(alloc, history, key, view),
        }
    }

    /// The file of a tile whose picture isn't kept: it is drawn, and kept unless an allocation
    /// fails.
    fn draw_kept(
        &mut self,
        alloc: Global,
        history: &History,
        key: Key,
        view: &View,
    ) -> Result<Vec<u8>, AllocError>
        requires cached { AllCached history.now.definitions self.old }
        requires tile { IsTileAt history.now.definitions key view.now }
        requires absent { entry_of key self.old.entries ≡ None }
        ensures file { IfOk result
            (λ file. IsTileOf history.now.definitions key view.now file.items) }
        ensures cached { AllCached history.now.definitions self.new }
        ensures used { OnOk result (IsUsed key self.old self.new) }
        ensures unchanged { OnErr result (self.new ≡ self.old) }
        ensures capacity { self.new.cap ≡ self.old.cap }
    {
        tiles_are_crops_of_one_picture();
        let map = history.published_map(key.sequence);
        let pixmap = draw_view(alloc, map, &key.layers, view, key.background())?;
        let file = cut(alloc, &pixmap, view, TILE)?;
        self.keep(key, pixmap);
        Ok(file)
    }

    /// Makes the key's picture the most recently used, and counts a tile that was cut out of it.
    fn touch(&mut self, key: &Key)
        requires { IsSome (entry_of key.now self.old.entries) }
        ensures taken { IsCutFromCache key.now self.old self.new }
        ensures cached { (history : List Definition) →
            AllCached history self.old → AllCached history self.new }
        ensures capacity { self.new.cap ≡ self.old.cap }
    {
        let _ = self.cached.promote(key);
        self.taken = risen(self.taken);
    }

    /// The key's picture, if it is kept.
    fn find(&self, key: &Key) -> Option<&Pixmap>
        ensures cached { IfSome result (λ pixmap. (history : List Definition) →
            AllCached history self.now → IsCached history key.now pixmap.now) }
        ensures there { OnSome result (IsSome (entry_of key.now self.now.entries)) }
        ensures absent { IfNone result (entry_of key.now self.now.entries ≡ None) }
    {
        self.cached.peek(key)
    }

    /// Counts a drawn picture, and keeps it; if an allocation fails, it is counted as one that
    /// isn't kept.
    fn keep(&mut self, key: Key, pixmap: Pixmap)
        requires { entry_of key self.old.entries ≡ None }
        ensures used { IsUsed key self.old self.new }
        ensures cached { (history : List Definition) →
            AllCached history self.old → IsCached history key pixmap → AllCached history self.new }
        ensures capacity { self.new.cap ≡ self.old.cap }
    {
        self.drawings = risen(self.drawings);
        let is_cached = put(&mut self.cached, key, pixmap);
        if is_cached {
            return;
        }
        self.unkept = risen(self.unkept);
    }
}

/// Puts a new entry before the others, of which the last goes if there is no room for it. Returns
/// false if an allocation fails, and then the entries are unchanged.
fn put(cached: &mut LruCache<Key, Pixmap>, key: Key, pixmap: Pixmap) -> bool
    requires { entry_of key cached.old.entries ≡ None }
    ensures put { result ≡ true → cached.new ≡ lru_cache
        ((key, pixmap) ∷ take (cached.old.cap - 1) cached.old.entries) cached.old.cap }
    ensures same { result ≡ false → cached.new ≡ cached.old }
{
    cached.put(key, pixmap).is_ok()
}

/// A count with one more, which stays at its highest.
#[tactic(auto, unfolding(crate::specs::CachedPictures::risen))]
fn risen(count: u64) -> u64
    ensures { result ≡ risen count }
{
    count.saturating_add(1)
}

impl Key {
    /// The key of the picture that the requested tile, that of this cell, is cut out of.
    pub(crate) fn of(asked: QueriedPicture, cell: GridCell) -> Self
        ensures sequence { result.sequence ≡ asked.sequence }
        ensures layers { result.layers.items ≡ asked.request.layers }
        ensures background { background_of result ≡ asked.request.background }
        ensures cell { IsCellOf result cell }
    {
        let QueriedPicture { sequence, request } = asked;
        let background = request.background();
        Key {
            sequence,
            layers: request.into_layers(),
            red: background.r,
            green: background.g,
            blue: background.b,
            level: cell.z,
            column: group_of(cell.col),
            row: group_of(cell.row),
        }
    }

    /// The background.
    fn background(&self) -> Color
        ensures { result ≡ background_of self.now }
    {
        Color {
            r: self.red,
            g: self.green,
            b: self.blue,
        }
    }
}

/// The index of the group of cells that share a view, on one axis, from that of one of its cells.
#[tactic(auto, unfolding(wf_geometry::specs::Exact::quotient))]
fn group_of(k: i64) -> i64
    ensures { result ≡ quotient k (pos shared_tiles) }
{
    k.div_euclid(SHARED_TILES as i64)
}
