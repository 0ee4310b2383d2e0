//! The keywords of each block, and what each takes, for whoever asks what is allowed.
ghost use Rattle.std.specs.Prelude.{◌≡◌, map, option_map};
ghost use Rattle.wf_mapfile.specs.Keywords.{AreKeywordsOf, IsKeywordOf, keyword_named};

use std::fmt;
use wf_block::{Block, is_name};
use wf_def::{MOST_BUFFER, MOST_PRIORITY, MOST_SIZE, MOST_WIDTH};

/// What a keyword takes.
#[derive(Clone, Copy)]
pub enum Takes {
    /// A block, up to its END.
    Block(Block),
    Text,
    LayerName,
    /// A text that begins with `ITEMS=`.
    AttributeNames,
    Expression,
    /// The text of PROJECTION.
    System,
    Extent,
    Size,
    Point,
    Color,
    /// A whole number, at least the first and at most the second.
    Whole(u8, u8),
    /// One of these words.
    OneOf(&'static [&'static str]),
}

/// A keyword, with what it takes.
pub type Keyword = (&'static str, Takes);

static MAP: [Keyword; 11] = [
    ("NAME", Takes::Text),
    ("EXTENT", Takes::Extent),
    ("PROJECTION", Takes::Block(Block::Projection)),
    ("WEB", Takes::Block(Block::Web)),
    ("LAYER", Takes::Block(Block::Layer)),
    ("SIZE", Takes::Size),
    ("IMAGECOLOR", Takes::Color),
    ("UNITS", Takes::Text),
    ("STATUS", Takes::Text),
    ("IMAGETYPE", Takes::Text),
    ("SHAPEPATH", Takes::Text),
];

static WEB: [Keyword; 3] = [
    ("METADATA", Takes::Block(Block::Metadata)),
    ("IMAGEPATH", Takes::Text),
    ("IMAGEURL", Takes::Text),
];

static LAYER: [Keyword; 11] = [
    ("NAME", Takes::LayerName),
    ("TYPE", Takes::OneOf(&["POINT", "LINE", "POLYGON"])),
    ("CLASSITEM", Takes::Text),
    ("LABELITEM", Takes::Text),
    ("PROCESSING", Takes::AttributeNames),
    ("METADATA", Takes::Block(Block::Metadata)),
    ("CLASS", Takes::Block(Block::Class)),
    ("FEATURE", Takes::Block(Block::Feature)),
    ("STATUS", Takes::Text),
    ("UNITS", Takes::Text),
    ("TEMPLATE", Takes::Text),
];

static CLASS: [Keyword; 4] = [
    ("NAME", Takes::Text),
    ("EXPRESSION", Takes::Expression),
    ("STYLE", Takes::Block(Block::Style)),
    ("LABEL", Takes::Block(Block::Label)),
];

static STYLE: [Keyword; 4] = [
    ("COLOR", Takes::Color),
    ("OUTLINECOLOR", Takes::Color),
    ("WIDTH", Takes::Whole(1, MOST_WIDTH)),
    ("SIZE", Takes::Whole(1, MOST_SIZE)),
];

static LABEL: [Keyword; 7] = [
    ("COLOR", Takes::Color),
    (
        "SIZE",
        Takes::OneOf(&["TINY", "SMALL", "MEDIUM", "LARGE", "GIANT"]),
    ),
    (
        "POSITION",
        Takes::OneOf(&["UL", "UC", "UR", "CL", "CC", "CR", "LL", "LC", "LR"]),
    ),
    ("PRIORITY", Takes::Whole(1, MOST_PRIORITY)),
    ("FORCE", Takes::OneOf(&["TRUE", "FALSE"])),
    ("BUFFER", Takes::Whole(0, MOST_BUFFER)),
    ("TYPE", Takes::OneOf(&["BITMAP"])),
];

static FEATURE: [Keyword; 3] = [
    ("POINTS", Takes::Block(Block::Points)),
    ("ITEMS", Takes::Text),
    ("TEXT", Takes::Text),
];

static NO_KEYWORDS: [Keyword; 0] = [];

/// The keywords of a block: exactly those that its reader takes, each with what the reader takes
/// after it. PROJECTION, METADATA and POINTS have none, but a text, pairs of texts and pairs of
/// numbers.
pub fn keywords_of(block: Block) -> &'static [Keyword]
    ensures { AreKeywordsOf block (map (λ k. (k.0.now, k.1)) result.now) }
{
    match block {
        Block::Map => &MAP,
        Block::Web => &WEB,
        Block::Layer => &LAYER,
        Block::Class => &CLASS,
        Block::Style => &STYLE,
        Block::Label => &LABEL,
        Block::Feature => &FEATURE,
        Block::Projection => &NO_KEYWORDS,
        Block::Metadata => &NO_KEYWORDS,
        Block::Points => &NO_KEYWORDS,
    }
}

/// The keyword of a block that has this name, without regard to ASCII letter case.
#[tactic(auto, using(crate::proofs::Keyword::of_block))]
pub fn keyword_of(block: Block, word: &[u8]) -> Option<Keyword>
    ensures { IsKeywordOf block word.now (option_map (λ k. (k.0.now, k.1)) result) }
{
    keyword_named(keywords_of(block), word)
}

/// The first keyword that has this name.
fn keyword_named(keywords: &'static [Keyword], word: &[u8]) -> Option<Keyword>
    ensures { option_map (λ k. (k.0.now, k.1)) result ≡
        keyword_named (map (λ k. (k.0.now, k.1)) keywords.now) word.now }
{
    for keyword in keywords {
        if is_name(word, keyword.0) {
            return Some(*keyword);
        }
    }
    None
}

impl fmt::Display for Takes {
    fn fmt<W: fmt::Write>(&self, f: &mut fmt::Formatter<W>) -> fmt::Result {
        match *self {
            Takes::Block(_) => write!(f, "its block, up to END"),
            Takes::Text => write!(f, "a text in quotes, or a word"),
            Takes::LayerName => write!(f, "a text that isn't empty and has no comma"),
            Takes::AttributeNames => write!(f, "a text that begins with ITEMS="),
            Takes::Expression => write!(f, "a text or a list in braces, but no pattern in slashes"),
            Takes::System => write!(f, "\"init=epsg:4326\" or \"init=epsg:3857\""),
            Takes::Extent => write!(f, "four numbers from -100000000 to 100000000"),
            Takes::Size | Takes::Point => write!(f, "two numbers from -100000000 to 100000000"),
            Takes::Color => write!(
                f,
                "three whole numbers from 0 to 255, or a text such as \"#00ff00\""
            ),
            Takes::Whole(least, most) => write!(f, "a whole number from {least} to {most}"),
            Takes::OneOf(words) => write_words(f, words),
        }
    }
}

/// Writes words as a list in a sentence.
fn write_words<W: fmt::Write>(f: &mut fmt::Formatter<W>, words: &[&str]) -> fmt::Result {
    let mut left = words.len();
    for word in words {
        left = left.saturating_sub(1);
        let behind = match left {
            0 => "",
            1 => " or ",
            _ => ", ",
        };
        write!(f, "{word}{behind}")?;
    }
    Ok(())
}
