//! LAYER: features of one kind, and how they are drawn.
ghost use Rattle.std.specs.Prelude.{◌≡◌, ◌≤◌, ◌+◌, [], None, Some, IfOk, IfSome, MatchOption, MatchResult, OnOk, drop, is_some, take, true, false, length, nat_lt, sum_by, unwrap_or};
ghost use Rattle.wf_def.specs.Layer as def;
ghost use Rattle.wf_def.specs.Limits.{has_layer, points_of_feature};
ghost use Rattle.wf_mapfile.specs.Layer.{begins_items, features_left, layer, layer_dropped, layer_kind, layer_name, layer_of, layer_once, new_name, no_layer, points_left, processing};
ghost use Rattle.wf_block.specs.ReadContract.{Gives, Passes};
ghost use Rattle.wf_block.specs.Steps.{again};
ghost use Rattle.wf_class.specs.Class.{class};
ghost use Rattle.wf_feature.specs.Feature.{feature};
ghost use Rattle.wf_mapfile.specs.Web.{no_metadata};
ghost use Rattle.wf_def.specs.Limit.{most_classes};

use crate::metadata::read_metadata;
use crate::slots::{LayerDropped, LayerOnce, LayerSlots, Metadata};
use std::alloc::{AllocError, Global};
use wf_block::{Block, MapFault, Parser, Slots, Token, fill_block, is_name, once, text_or_empty};
use wf_class::read_class;
use wf_def::{Classes, Features, Layer, LayerKind};
use wf_feature::{LayerName, LayerRead, Layers, read_feature};
use wf_text::Text;

/// LAYER while it is read.
#[derive(Drop)]
struct LayerReading<'a> {
    slots: LayerSlots,
    /// The layers before this one.
    others: &'a Layers,
    /// The number of points read so far.
    points: usize,
}

impl Slots for LayerReading<'_> {
    ghost use Rattle.std.specs.Prelude.{◌≡◌, ◌≤◌, ℕ, List, IfSome, false, length, sum_by};
    ghost use Rattle.wf_def.specs.Definition.{LayerDefinition};
    ghost use Rattle.wf_def.specs.Limits.{has_layer, points_of_feature};
    ghost use Rattle.wf_mapfile.specs.declared.slots.LayerSlots.{LayerSlots as Value};
    ghost use Rattle.wf_mapfile.specs.Layer.{features_left, layer_put, points_left};

    ghost Settings = { Value };

    ghost settings = { λ l. l.slots };

    ghost Within = { List (List ℕ × LayerDefinition) };

    ghost within = { λ l. l.others.now };

    ghost put = { layer_put };

    ghost Holds = { λ l. IfSome l.slots.single.name (λ name. has_layer l.others.now name ≡ false) × (length l.slots.features ≤ features_left l.others.now) × (l.points ≡ sum_by points_of_feature l.slots.features) × (l.points ≤ points_left l.others.now) };

    #[tactic(auto, unfolding(crate::specs::Layer::layer_put))]
    fn take(&mut self, keyword: Token<'_>, parser: &mut Parser<'_>) -> Result<(), MapFault> {
        if is_name(keyword.text, "CLASS") {
            self.slots.take_class(parser)?;
        } else if is_name(keyword.text, "FEATURE") {
            let most = self.others.features_left();
            let left = self.others.points_left() - self.points;
            self.points += self.slots.take_feature(most, left, parser)?;
        } else {
            self.slots.single.take(keyword, parser, self.others)?;
        }
        Ok(())
    }
}

impl LayerSlots {
    /// Reads a class and appends it to those before, if there is room for it.
    fn take_class(&mut self, parser: &mut Parser<'_>) -> Result<(), MapFault>
        ensures read { Gives (λ _. (self.new, parser.new)) result
            (again most_classes self.old.classes class (λ more. record self.old { classes = more })
            parser.old) }
        ensures features { OnOk result (self.new.features ≡ self.old.features) }
        ensures single { OnOk result (self.new.single ≡ self.old.single) }
    {
        class_room(&self.classes)?;
        let class = read_class(parser)?;
        self.classes.push(class)?;
        Ok(())
    }

    /// Reads a feature of at most `left` points and appends it to those before, if there are less
    /// than `most`. Returns the number of its points.
    fn take_feature(
        &mut self,
        most: usize,
        left: usize,
        parser: &mut Parser<'_>,
    ) -> Result<usize, MapFault>
        ensures read { Gives (λ _. (self.new, parser.new)) result
            (again most self.old.features (feature left)
            (λ more. record self.old { features = more }) parser.old) }
        ensures room { OnOk result (length self.new.features ≤ most) }
        ensures counted { IfOk result (λ points. sum_by points_of_feature self.new.features ≡
            sum_by points_of_feature self.old.features + points) }
        ensures fits { IfOk result (λ points. points ≤ left) }
        ensures single { OnOk result (self.new.single ≡ self.old.single) }
    {
        feature_room(&self.features, most)?;
        let (feature, points) = read_feature(parser, left)?;
        self.features.push(feature)?;
        Ok(points)
    }
}

/// Rejects another feature if there are `most` already.
fn feature_room(features: &Features, most: usize) -> Result<(), MapFault>
    ensures { Passes (nat_lt (length features.now) most) result }
{
    if features.as_slice().len() >= most {
        return Err(MapFault::TooMany);
    }
    Ok(())
}

/// Rejects another class if there is no room for it.
fn class_room(classes: &Classes) -> Result<(), MapFault>
    ensures { Passes (nat_lt (length classes.now) most_classes) result }
{
    if classes.is_full() {
        return Err(MapFault::TooMany);
    }
    Ok(())
}

impl LayerOnce {
    /// Reads the arguments of a keyword that comes at most once, and stores them. The name must
    /// differ from those of the layers before.
    #[tactic(auto, unfolding(crate::specs::Layer::layer_once))]
    fn take(
        &mut self,
        keyword: Token<'_>,
        parser: &mut Parser<'_>,
        others: &Layers,
    ) -> Result<(), MapFault>
        requires new { IfSome self.old.name (λ name. has_layer others.now name ≡ false) }
        ensures read { Gives (λ _. (self.new, parser.new)) result
            (layer_once others.now self.old keyword.entry.text.now parser.old) }
        ensures new { OnOk result
            (IfSome self.new.name (λ name. has_layer others.now name ≡ false)) }
    {
        let word = keyword.text;
        let byte_offset = keyword.byte_offset;
        if is_name(word, "NAME") {
            once!(self.name, byte_offset, read_new_name(parser, others));
        } else if is_name(word, "TYPE") {
            once!(self.kind, byte_offset, read_layer_kind(parser));
        } else if is_name(word, "CLASSITEM") {
            once!(self.class_item, byte_offset, parser.text());
        } else if is_name(word, "LABELITEM") {
            once!(self.label_item, byte_offset, parser.text());
        } else if is_name(word, "PROCESSING") {
            once!(self.items, byte_offset, read_attribute_names(parser));
        } else if is_name(word, "METADATA") {
            once!(self.metadata, byte_offset, read_metadata(parser));
        } else {
            self.dropped.take(keyword, parser)?;
        }
        Ok(())
    }
}

impl LayerDropped {
    /// Reads the arguments of a dropped keyword, and stores that it came.
    #[tactic(auto, unfolding(crate::specs::Layer::layer_dropped))]
    fn take(&mut self, keyword: Token<'_>, parser: &mut Parser<'_>) -> Result<(), MapFault>
        ensures { Gives (λ _. (self.new, parser.new)) result
            (layer_dropped self.old keyword.entry.text.now parser.old) }
    {
        let word = keyword.text;
        let byte_offset = keyword.byte_offset;
        if is_name(word, "STATUS") {
            once!(self.status, byte_offset, parser.text_there(), _ => ());
        } else if is_name(word, "UNITS") {
            once!(self.units, byte_offset, parser.text_there(), _ => ());
        } else if is_name(word, "TEMPLATE") {
            once!(self.template, byte_offset, parser.text_there(), _ => ());
        } else {
            return Err(MapFault::UnexpectedWord(byte_offset));
        }
        Ok(())
    }
}

impl LayerSlots {
    fn new(alloc: Global) -> Self
        ensures { result ≡ no_layer }
    {
        LayerSlots {
            classes: Classes::new(alloc),
            features: Features::new(alloc),
            single: LayerOnce::default(),
        }
    }

    /// The layer of the slots, with defaults for absent ones.
    #[tactic(auto, unfolding(crate::specs::Layer::layer_of))]
    fn fill(self, alloc: Global) -> Result<(LayerName, Layer), MapFault>
        ensures { Gives (λ l. l) result (layer_of self) }
    {
        if self.single.name.is_none() {
            drop(self);
            return Err(MapFault::Missing);
        }
        if self.single.kind.is_none() {
            drop(self);
            return Err(MapFault::Missing);
        }
        let LayerSlots {
            classes,
            features,
            single,
        } = self;
        match single.fill(alloc) {
            Ok(head) => head.with(classes, features),
            Err(_) => {
                drop(classes);
                drop(features);
                Err(MapFault::Memory)
            }
        }
    }
}

impl LayerOnce {
    /// The first keyword that is required and hasn't come.
    fn lacking(&self) -> Option<&'static str> {
        if self.name.is_none() {
            Some("NAME")
        } else if self.kind.is_none() {
            Some("TYPE")
        } else {
            None
        }
    }

    /// The values of the slots, with defaults for absent ones.
    fn fill(self, alloc: Global) -> Result<LayerHead, AllocError>
        requires name { is_some self.name ≡ true }
        requires kind { is_some self.kind ≡ true }
        ensures name { IfOk result (λ head. self.name ≡ Some head.name) }
        ensures kind { IfOk result (λ head. self.kind ≡ Some head.kind) }
        ensures title { IfOk result
            (λ head. head.title ≡ unwrap_or (unwrap_or self.metadata no_metadata).title head.name) }
        ensures class_item { IfOk result (λ head. head.class_item ≡ unwrap_or self.class_item []) }
        ensures label_item { IfOk result (λ head. head.label_item ≡ unwrap_or self.label_item []) }
        ensures items { IfOk result (λ head. head.items ≡ unwrap_or self.items []) }
    {
        let LayerOnce {
            name,
            kind,
            class_item,
            label_item,
            items,
            metadata,
            dropped: _,
        } = self;
        let name = name.unwrap();
        let kind = kind.unwrap();
        let texts = match texts_or_empty(alloc, class_item, label_item, items) {
            Ok(texts) => texts,
            Err(error) => {
                drop(name);
                drop(metadata);
                return Err(error);
            }
        };
        match title_or(metadata, name.text()) {
            Ok(title) => {
                let (class_item, label_item, items) = texts;
                Ok(LayerHead {
                    name,
                    kind,
                    title,
                    class_item,
                    label_item,
                    items,
                })
            }
            Err(error) => {
                drop(name);
                drop(texts);
                Err(error)
            }
        }
    }
}

/// Three texts, each empty if it is absent.
fn texts_or_empty(
    alloc: Global,
    first: Option<Text>,
    second: Option<Text>,
    third: Option<Text>,
) -> Result<(Text, Text, Text), AllocError>
    ensures { IfOk result (λ texts. texts ≡
        (unwrap_or first [], unwrap_or second [], unwrap_or third [])) }
{
    let first = match text_or_empty(alloc, first) {
        Ok(first) => first,
        Err(error) => {
            drop(second);
            drop(third);
            return Err(error);
        }
    };
    let second = match text_or_empty(alloc, second) {
        Ok(second) => second,
        Err(error) => {
            drop(first);
            drop(third);
            return Err(error);
        }
    };
    match text_or_empty(alloc, third) {
        Ok(third) => Ok((first, second, third)),
        Err(error) => {
            drop(first);
            drop(second);
            Err(error)
        }
    }
}

/// A layer without its classes and features.
struct LayerHead {
    name: LayerName,
    kind: LayerKind,
    title: Text,
    class_item: Text,
    label_item: Text,
    items: Text,
}

impl LayerHead {
    /// The layer with these classes and features, and its name.
    fn with(self, classes: Classes, features: Features) -> Result<(LayerName, Layer), MapFault>
        ensures { let layer = def.layer_of
            self.kind self.title self.class_item self.label_item self.items classes features in
            MatchResult result (λ l. (layer ≡ Some l.1) × (l.0 ≡ self.name)) (λ _. layer ≡ None) }
    {
        let LayerHead {
            name,
            kind,
            title,
            class_item,
            label_item,
            items,
        } = self;
        match Layer::new(
            kind, title, class_item, label_item, items, classes, features,
        ) {
            Some(layer) => Ok((name, layer)),
            None => {
                drop(name);
                Err(MapFault::Missing)
            }
        }
    }
}

impl LayerReading<'_> {
    /// The layer that was read, with its name and the number of its points.
    #[tactic(auto, using(crate::proofs::Counted::layer_counted))]
    fn fill(self, alloc: Global) -> Result<LayerRead, MapFault>
        requires name { IfSome self.slots.single.name
            (λ name. has_layer self.others.now name ≡ false) }
        requires features { length self.slots.features ≤ features_left self.others.now }
        requires counted { self.points ≡ sum_by points_of_feature self.slots.features }
        requires points { self.points ≤ points_left self.others.now }
        ensures read { Gives (λ l. (l.name, l.layer)) result (layer_of self.entry.slots) }
        ensures new { IfOk result (λ l. has_layer self.entry.others.now l.name ≡ false) }
        ensures features { IfOk result
            (λ l. length l.layer.features ≤ features_left self.entry.others.now) }
        ensures counted { IfOk result (λ l. l.points ≡ sum_by points_of_feature l.layer.features) }
        ensures points { IfOk result (λ l. l.points ≤ points_left self.entry.others.now) }
    {
        let LayerReading {
            slots,
            others: _,
            points,
        } = self;
        match slots.fill(alloc) {
            Ok((name, layer)) => Ok(LayerRead {
                name,
                layer,
                points,
            }),
            Err(fault) => Err(fault),
        }
    }
}

/// The title of the metadata, or the name if there is none.
fn title_or(metadata: Option<Metadata>, name: &Text) -> Result<Text, AllocError>
    ensures { IfOk result (λ t. t ≡ unwrap_or (unwrap_or metadata no_metadata).title name.now) }
{
    let Metadata {
        title,
        abstract_text: _,
        address: _,
    } = match metadata {
        Some(metadata) => metadata,
        None => Metadata::new(),
    };
    match title {
        Some(title) => Ok(title),
        None => name.clone(),
    }
}

/// Reads a layer up to its END (MapServer mapfile reference, LAYER), after other layers: its name
/// differs from theirs, and it has at most as many features and points as are left for the map.
#[tactic(auto, unfolding(crate::specs::Layer::layer))]
pub fn read_layer(parser: &mut Parser<'_>, others: &Layers) -> Result<LayerRead, MapFault>
    ensures read { Gives (λ l. ((l.name, l.layer), parser.new)) result
        (layer others.now parser.old) }
    ensures new { IfOk result (λ l. has_layer others.now l.name ≡ false) }
    ensures features { IfOk result (λ l. length l.layer.features ≤ features_left others.now) }
    ensures counted { IfOk result (λ l. l.points ≡ sum_by points_of_feature l.layer.features) }
    ensures points { IfOk result (λ l. l.points ≤ points_left others.now) }
{
    let mut reading = LayerReading {
        slots: LayerSlots::new(parser.alloc()),
        others,
        points: 0,
    };
    match fill_block(parser, Block::Layer, &mut reading) {
        Ok(()) => {
            parser.lacks(reading.slots.single.lacking());
            reading.fill(parser.alloc())
        }
        Err(fault) => {
            drop(reading);
            Err(fault)
        }
    }
}

/// Reads a name that none of the layers before has.
#[tactic(auto, unfolding(crate::specs::Layer::new_name))]
fn read_new_name(parser: &mut Parser<'_>, others: &Layers) -> Result<LayerName, MapFault>
    ensures read { Gives (λ name. (name, parser.new)) result (new_name others.now parser.old) }
    ensures new { IfOk result (λ name. has_layer others.now name ≡ false) }
{
    let byte_offset = parser.byte_offset();
    let name = read_layer_name(parser)?;
    if others.has_layer(&name) {
        return Err(MapFault::Repeated(byte_offset));
    }
    Ok(name)
}

/// Reads a layer's name: a text that isn't empty and has no comma (MapServer mapfile reference,
/// LAYER NAME).
#[tactic(auto, unfolding(crate::specs::Layer::layer_name))]
fn read_layer_name(parser: &mut Parser<'_>) -> Result<LayerName, MapFault>
    ensures { Gives (λ name. (name, parser.new)) result (layer_name parser.old) }
{
    let byte_offset = parser.byte_offset();
    let text = parser.text()?;
    LayerName::new(text).ok_or(MapFault::OutOfRange(byte_offset))
}

/// Reads the kind of features (MapServer mapfile reference, LAYER TYPE).
#[tactic(auto, unfolding(crate::specs::Layer::layer_kind))]
fn read_layer_kind(parser: &mut Parser<'_>) -> Result<LayerKind, MapFault>
    ensures { Gives (λ kind. (kind, parser.new)) result (layer_kind parser.old) }
{
    parser.one_of(&[
        ("POINT", LayerKind::Points),
        ("LINE", LayerKind::Lines),
        ("POLYGON", LayerKind::Polygons),
    ])
}

/// Reads the names of the features' attributes (MapServer mapfile reference, PROCESSING): what
/// follows `ITEMS=` in a text.
#[tactic(auto, unfolding(crate::specs::Layer::processing))]
fn read_attribute_names(parser: &mut Parser<'_>) -> Result<Text, MapFault>
    ensures { Gives (λ t. (t, parser.new)) result (processing parser.old) }
{
    let byte_offset = parser.byte_offset();
    let text = parser.text_there()?;
    match names_of(text.as_bytes()) {
        Some(names) => parser.text_at(names, byte_offset),
        None => Err(MapFault::UnexpectedWord(byte_offset)),
    }
}

/// What follows `ITEMS=`, in any letter case, at the front.
#[tactic(auto, using(crate::proofs::Texts::cut_take, crate::proofs::Texts::cut_drop))]
fn names_of(bytes: &[u8]) -> Option<&[u8]>
    ensures { MatchOption result (begins_items bytes.now ≡ false)
        (λ names. (begins_items bytes.now ≡ true) × (names.now ≡ drop 6 bytes.now)) }
{
    let (mark, names) = bytes.split_at(bytes.len().min(6));
    if is_name(mark, "ITEMS=") {
        Some(names)
    } else {
        None
    }
}
