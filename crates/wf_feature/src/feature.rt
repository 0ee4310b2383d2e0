//! FEATURE: a shape, with the values of its attributes and the text of its label.
ghost use Rattle.std.specs.Prelude.{◌≡◌, ◌≤◌, IfOk, None, length, true, if◌then◌else◌};
ghost use Rattle.wf_def.specs.Limits.{points_of_feature};
ghost use Rattle.wf_feature.specs.Feature.{feature, feature_of, feature_once, no_feature, point, points};
ghost use Rattle.wf_block.specs.ReadContract.{Gives};

use crate::slots::{FeatureOnce, FeatureSlots};
use std::alloc::Global;
use wf_block::{Block, MapFault, Parser, Slots, Token, fill_block, is_name, once, text_or_empty};
use wf_def::{Feature, Part, Point, ShapeParts};

/// FEATURE while it is read.
#[derive(Drop)]
struct FeatureReading {
    slots: FeatureSlots,
    /// The most points that may come.
    most: usize,
    /// The number of points read so far.
    points: usize,
}

impl Slots for FeatureReading {
    ghost use Rattle.std.specs.Prelude.{◌≡◌, ◌≤◌, ℕ, length, sum_by};
    ghost use Rattle.wf_feature.specs.declared.slots.FeatureSlots.{FeatureSlots as Value};
    ghost use Rattle.wf_feature.specs.Feature.{feature_put};

    ghost Settings = { Value };

    ghost settings = { λ f. f.slots };

    ghost Within = { ℕ };

    ghost within = { λ f. f.most };

    ghost put = { feature_put };

    ghost Holds = { λ f. (f.points ≡ sum_by length f.slots.parts) × (f.points ≤ f.most) };

    #[tactic(auto, unfolding(crate::specs::Feature::feature_put))]
    fn take(&mut self, keyword: Token<'_>, parser: &mut Parser<'_>) -> Result<(), MapFault> {
        if is_name(keyword.text, "POINTS") {
            let part = read_part(parser, self.most - self.points)?;
            let count = part.len();
            self.slots.parts.push(part)?;
            self.points += count;
        } else {
            self.slots.single.take(keyword, parser)?;
        }
        Ok(())
    }
}

impl FeatureOnce {
    /// Reads the arguments of a keyword that comes at most once, and stores them.
    #[tactic(auto, unfolding(crate::specs::Feature::feature_once))]
    fn take(&mut self, keyword: Token<'_>, parser: &mut Parser<'_>) -> Result<(), MapFault>
        ensures { Gives (λ _. (self.new, parser.new)) result
            (feature_once self.old keyword.entry.text.now parser.old) }
    {
        let word = keyword.text;
        let byte_offset = keyword.byte_offset;
        if is_name(word, "ITEMS") {
            once!(self.items, byte_offset, parser.text());
        } else if is_name(word, "TEXT") {
            once!(self.text, byte_offset, parser.text());
        } else {
            return Err(MapFault::UnexpectedWord(byte_offset));
        }
        Ok(())
    }
}

impl FeatureSlots {
    fn new(alloc: Global) -> Self
        ensures { result ≡ no_feature }
    {
        FeatureSlots {
            parts: ShapeParts::new(alloc),
            single: FeatureOnce::default(),
        }
    }

    /// The keyword that is required and hasn't come.
    fn lacking(&self) -> Option<&'static str> {
        if self.parts.as_slice().is_empty() {
            Some("POINTS")
        } else {
            None
        }
    }

    /// The feature of the slots; absent texts are empty.
    #[tactic(auto, unfolding(crate::specs::Feature::feature_of))]
    fn fill(self, alloc: Global) -> Result<Feature, MapFault>
        ensures { Gives (λ f. f) result (feature_of self) }
    {
        let FeatureSlots { parts, single } = self;
        let FeatureOnce { items, text } = single;
        let items = text_or_empty(alloc, items)?;
        let text = text_or_empty(alloc, text)?;
        Feature::new(parts, items, text).ok_or(MapFault::Missing)
    }
}

/// Reads a shape of at most `most` points up to its END (MapServer mapfile reference, FEATURE), and
/// returns it with the number of its points.
#[tactic(auto, unfolding(crate::specs::Feature::feature), using(crate::proofs::Counted::feature_counted))]
pub fn read_feature(parser: &mut Parser<'_>, most: usize) -> Result<(Feature, usize), MapFault>
    ensures read { Gives (λ f. (f.0, parser.new)) result (feature most parser.old) }
    ensures counted { IfOk result (λ f. f.1 ≡ points_of_feature f.0) }
    ensures fits { IfOk result (λ f. f.1 ≤ most) }
{
    let mut reading = FeatureReading {
        slots: FeatureSlots::new(parser.alloc()),
        most,
        points: 0,
    };
    fill_block(parser, Block::Feature, &mut reading)?;
    parser.lacks(reading.slots.lacking());
    let FeatureReading {
        slots,
        most: _,
        points,
    } = reading;
    Ok((slots.fill(parser.alloc())?, points))
}

/// Reads a part of at most n points up to its END (MapServer mapfile reference, POINTS).
fn read_part(parser: &mut Parser<'_>, most: usize) -> Result<Part, MapFault>
    ensures read { Gives (λ part. (part, parser.new)) result (points most parser.old) }
    ensures fits { IfOk result (λ part. length part ≤ most) }
{
    let outer = parser.enter(Block::Points);
    let part = read_points(parser, most)?;
    parser.leave(outer);
    Ok(part)
}

/// Reads at most n points up to END.
#[tactic(auto, unfolding(crate::specs::Feature::points), using(crate::proofs::PointsTheorem::points_step, crate::proofs::PointsTheorem::points_past))]
fn read_points(parser: &mut Parser<'_>, most: usize) -> Result<Part, MapFault>
    ensures read { Gives (λ part. (part, parser.new)) result (points most parser.old) }
    ensures fits { IfOk result (λ part. length part ≤ most) }
{
    let mut part = Part::new(parser.alloc());
    for _ in 0..parser.len() {
        if parser.is_at_end() {
            parser.end()?;
            return Ok(part);
        }
        let point = read_point(parser, part.len() < most)?;
        part.push(point)?;
    }
    Err(parser.missing_end())
}

/// Reads a point, if there is room for one; otherwise the error is at its first number.
#[tactic(auto, unfolding(crate::specs::Feature::point))]
fn read_point(parser: &mut Parser<'_>, room: bool) -> Result<Point, MapFault>
    ensures read { Gives (λ p. (p, parser.new)) result (if room then point parser.old else None) }
    ensures one { IfOk result (λ _. room ≡ true) }
{
    let byte_offset = parser.byte_offset();
    parser.at_keyword(None);
    let x = parser.number()?;
    parser.at_keyword(Some(byte_offset));
    if !room {
        return Err(MapFault::TooMany);
    }
    let y = parser.number()?;
    Ok(Point { x, y })
}
