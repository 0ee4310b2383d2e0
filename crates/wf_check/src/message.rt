//! The message about an error: what was found there, and what is allowed there.
ghost use Rattle.std.specs.Prelude.{◌≡◌, ◌++◌, IfOk, OnOk, None, Some, codes, map};
ghost use Rattle.std.specs.String.{string_bytes};
ghost use Rattle.wf_check.specs.Message.{IsAllowedHere, IsAllowedIn, IsKeywordList, IsFindingMessage, IsReaderMessage, IsSaid, IsSaidHere, Says, allowed_end, enumerated};

use crate::bad_token::BadToken;
use crate::excess::explain_excess;
use crate::fault::CheckFault;
use crate::finding::Finding;
use crate::line::line_of;
use crate::shown::Quote;
use crate::skim::{Act, ShortShape, block_at, events_of, short_shape};
use std::alloc::{AllocError, Global};
use std::fmt::Write;
use wf_block::{Block, MapFault, Token, tokenize};
use wf_def::{MOST_CLASSES, MOST_FEATURES, MOST_LAYERS, MOST_POINTS, MOST_STYLES};
use wf_mapfile::{Keyword, MOST_MAPFILE_BYTES, Takes, keyword_of, keywords_of};
use wf_text::MOST_TEXT_BYTES;

/// The most bytes of a file that are counted.
pub const MOST_COUNTED_BYTES: usize = 16_777_216;

/// What was found at an error and what is allowed there.
pub(crate) fn message(alloc: Global, finding: &Finding<'_>) -> Result<String, AllocError>
    ensures { IfOk result (λ text. IsFindingMessage finding.now (string_bytes text)) }
{
    match finding.fault {
        CheckFault::Map(fault) => message_of(alloc, finding, fault),
        CheckFault::TooBig => explain_excess(alloc, finding.file),
    }
}

/// What was found at an error of the reader and what is allowed there.
fn message_of(alloc: Global, finding: &Finding<'_>, fault: MapFault) -> Result<String, AllocError>
    ensures { IfOk result (λ text. IsReaderMessage finding.now fault (string_bytes text)) }
{
    // Bytes that aren't read have no tokens.
    let read: &[u8] = match fault {
        MapFault::TooLong | MapFault::NotUtf8(_) => &[],
        _ => finding.file,
    };
    let lexed = tokenize(alloc, read)?;
    let reading = Reading {
        alloc,
        fault,
        finding: *finding,
        tokens: lexed.tokens.as_slice(),
    };
    let message = reading.message();
    drop(lexed);
    message
}

/// A file that was read as far as an error.
#[derive(Clone, Copy)]
struct Reading<'a> {
    alloc: Global,
    fault: MapFault,
    finding: Finding<'a>,
    tokens: &'a [Token<'a>],
}

impl<'a> Reading<'a> {
    /// The message about the error.
    fn message(&self) -> Result<String, AllocError>
        ensures { IfOk result
            (λ text. IsReaderMessage self.now.finding self.now.fault (string_bytes text)) }
    {
        match self.fault {
            MapFault::TooLong => self.too_long(),
            MapFault::NotUtf8(_) => self.not_utf8(),
            MapFault::BadToken(_) => self.bad_token(),
            MapFault::MissingEnd(_) | MapFault::Memory => self.ended(),
            MapFault::Missing => self.missing(),
            MapFault::TooMany => self.too_many(),
            MapFault::Repeated(_) => self.repeated(),
            MapFault::OutOfRange(_) => self.out_of_range(),
            MapFault::Trailing(_) => self.say(self.quote(), "nothing after MAP's END"),
            MapFault::UnexpectedWord(_) | MapFault::BadNumber(_) => self.unexpected(),
        }
    }

    /// Says what was found and what is allowed.
    fn say(&self, found: Result<String, AllocError>, allowed: &str) -> Result<String, AllocError>
        ensures says { IfOk result (λ text. Says (string_bytes text) allowed.now) }
        ensures said { IfOk result (λ text. IsSaid (string_bytes text)) }
    {
        let found = found?;
        let text = said(self.alloc, found.as_str(), allowed);
        drop(found);
        text
    }

    fn too_long(&self) -> Result<String, AllocError>
        ensures { IfOk result (λ text. Says (string_bytes text)
            (codes "a mapfile of at most 131072 bytes")) }
    {
        let count = self.finding.file.len();
        let over = count.saturating_sub(MOST_MAPFILE_BYTES);
        let found = if count > MOST_COUNTED_BYTES {
            format!(in self.alloc; "a file of over {MOST_COUNTED_BYTES} bytes")
        } else {
            format!(in self.alloc; "a file of {count} bytes, {over} too many")
        };
        self.say(found, "a mapfile of at most 131072 bytes")
    }

    fn not_utf8(&self) -> Result<String, AllocError>
        ensures { IfOk result (λ text. Says (string_bytes text)
            (codes "UTF-8; convert the file, as by iconv -f latin1 -t utf-8")) }
    {
        let byte = self.rest().first().copied().unwrap_or(0);
        let found = format!(in self.alloc;
            "the byte {byte:02X} (hexadecimal), which isn't UTF-8 here"
        );
        self.say(
            found,
            "UTF-8; convert the file, as by iconv -f latin1 -t utf-8",
        )
    }

    fn bad_token(&self) -> Result<String, AllocError>
        ensures { IfOk result (λ text. IsSaid (string_bytes text)) }
    {
        let bad = BadToken::at(self.rest());
        self.say(format!(in self.alloc; "{bad}"), bad.allowed())
    }

    /// The bytes from the error on.
    fn rest(&self) -> &'a [u8] {
        let file = self.finding.file;
        file.split_at(self.finding.offset.min(file.len())).1
    }

    /// The token at the error.
    fn token(&self) -> Option<Token<'a>> {
        token_at(self.tokens, Some(self.finding.offset))
    }

    fn quote(&self) -> Result<String, AllocError> {
        format!(in self.alloc; "{}", Quote(self.token()))
    }

    /// About the end of a file, in a block or before MAP.
    fn ended(&self) -> Result<String, AllocError>
        ensures says { IfOk result
            (λ text. Says (string_bytes text) (allowed_end self.now.finding.place.block)) }
        ensures said { IfOk result (λ text. IsSaid (string_bytes text)) }
    {
        let Some(block) = self.finding.place.block else {
            return self.say(format!(in self.alloc; "the end of the file"), "MAP");
        };
        let name = block.name();
        let line = line_of(self.finding.file, self.finding.place.begin);
        let allowed = end_of_block(self.alloc, block)?;
        let found = format!(in self.alloc;
            "the end of the file inside {name}, which begins in line {line}"
        );
        self.say(found, allowed.as_str())
    }

    /// About a value out of its range: a box is empty, a text or a list is too long, or a number
    /// is.
    fn out_of_range(&self) -> Result<String, AllocError>
        ensures { IfOk result (λ text. IsSaid (string_bytes text)) }
    {
        if self.finding.place.keyword == Some(self.finding.offset) {
            return self.say(
                format!(in self.alloc; "an EXTENT whose minima aren't below its maxima"),
                "minx miny maxx maxy, with minx below maxx and miny below maxy",
            );
        }
        match self.token() {
            Some(token) if token.text.len() <= MOST_TEXT_BYTES => self.unexpected(),
            _ => self.say(
                format!(in self.alloc; "a text of over {MOST_TEXT_BYTES} bytes"),
                "a text of at most 1000 bytes",
            ),
        }
    }

    /// About a keyword, a key or a layer's name that comes a second time.
    fn repeated(&self) -> Result<String, AllocError>
        ensures { IfOk result (λ text. IsSaid (string_bytes text)) }
    {
        let name = self.finding.place.block.unwrap_or(Block::Map).name();
        let found = format!(in self.alloc; "{} a second time in {name}", Quote(self.token()));
        match self.argument() {
            Some((_, Takes::LayerName)) => self.say(found, "a name that no layer before has"),
            _ => self.say(found, "it once"),
        }
    }

    /// About a token that isn't what is allowed there.
    #[tactic(auto, using(crate::proofs::Messages::said_here))]
    fn unexpected(&self) -> Result<String, AllocError>
        ensures here { IfOk result (λ text. IsSaidHere self.now.finding (string_bytes text)) }
        ensures said { IfOk result (λ text. IsSaid (string_bytes text)) }
    {
        let allowed = self.allowed_here()?;
        let text = self.say(self.quote(), allowed.as_str());
        drop(allowed);
        text
    }

    /// What is allowed at the error.
    #[tactic(auto, using(crate::proofs::Messages::between, crate::proofs::Messages::behind_keyword))]
    fn allowed_here(&self) -> Result<String, AllocError>
        ensures { IfOk result (λ text. IsAllowedHere self.now.finding (string_bytes text)) }
    {
        match (self.finding.place.block, self.argument()) {
            (None, _) => format!(in self.alloc; "MAP"),
            (Some(_), Some((name, takes))) => format!(in self.alloc; "{name} with {takes}"),
            (Some(block), None) => self.allowed_in(block),
        }
    }

    /// The keyword, or what stands for one, whose argument the error is in, with what it takes.
    fn argument(&self) -> Option<Keyword>
        ensures none { self.now.finding.place.keyword ≡ None → result ≡ None }
        ensures own { self.now.finding.place.keyword ≡ Some self.now.finding.offset →
            result ≡ None }
    {
        let begin = self.finding.place.keyword?;
        if begin == self.finding.offset {
            return None;
        }
        match self.finding.place.block? {
            Block::Points => Some(("POINTS", Takes::Point)),
            Block::Metadata => Some(("a key", Takes::Text)),
            block => keyword_of(block, token_at(self.tokens, Some(begin))?.text),
        }
    }

    /// What is allowed in a block between its keywords.
    fn allowed_in(&self, block: Block) -> Result<String, AllocError>
        ensures { IfOk result (λ text. IsAllowedIn block (string_bytes text)) }
    {
        match block {
            Block::Points => format!(in self.alloc; "pairs of numbers, x and y, or END"),
            Block::Metadata => format!(in self.alloc; "pairs of texts, key and value, or END"),
            Block::Projection => match self.finding.place.keyword {
                None => format!(in self.alloc; "{}, then END", Takes::System),
                Some(_) => format!(in self.alloc; "the END of PROJECTION"),
            },
            Block::Map | Block::Web | Block::Layer | Block::Class => listed(self.alloc, block),
            Block::Style | Block::Label | Block::Feature => listed(self.alloc, block),
        }
    }

    /// About what the block that ended last misses: a keyword, or points. If none has, MAP itself
    /// is missing.
    fn missing(&self) -> Result<String, AllocError>
        ensures { IfOk result (λ text. IsSaid (string_bytes text)) }
    {
        let place = self.finding.place;
        if let (Some(block), Some(lacking)) = (place.ended, place.lacking) {
            return self.lacking(block, lacking);
        }
        match self.short_shape()? {
            Some(shape) => self.few_points(shape),
            None => self.ended(),
        }
    }

    /// The first shape with too few points, where M9 is for one: the layer that ended last has all
    /// keywords that it needs.
    fn short_shape(&self) -> Result<Option<ShortShape>, AllocError> {
        let place = self.finding.place;
        match (place.ended, place.lacking, place.keyword) {
            (Some(Block::Layer), None, Some(layer)) => {
                let events = events_of(self.alloc, self.tokens)?;
                let around = block_at(events.as_slice(), Block::Layer, layer);
                let shape = short_shape(around, self.tokens);
                drop(events);
                Ok(shape)
            }
            _ => Ok(None),
        }
    }

    fn lacking(&self, block: Block, lacking: &str) -> Result<String, AllocError>
        ensures { IfOk result (λ text. IsSaid (string_bytes text)) }
    {
        let Some((_, takes)) = keyword_of(block, lacking.as_bytes()) else {
            return self.ended();
        };
        let name = block.name();
        let allowed = format!(in self.alloc; "{lacking} with {takes}")?;
        let found = format!(in self.alloc; "{name} without {lacking}");
        self.say(found, allowed.as_str())
    }

    fn few_points(&self, shape: ShortShape) -> Result<String, AllocError>
        ensures { IfOk result (λ text. IsSaid (string_bytes text)) }
    {
        let (count, kind, fewest) = (shape.points, shape.kind, shape.fewest);
        let points = if count == 1 { "point" } else { "points" };
        let found = format!(in self.alloc;
            "POINTS with {count} {points}, in a layer of TYPE {kind}"
        );
        match fewest {
            1 => self.say(found, "at least 1 point"),
            2 => self.say(found, "at least 2 points"),
            _ => self.say(found, "at least 3 points"),
        }
    }

    /// About a limit that is passed, and how many items there are.
    fn too_many(&self) -> Result<String, AllocError>
        ensures { IfOk result (λ text. IsSaid (string_bytes text)) }
    {
        let Some((act, (within, whole, items, most))) = self.limit() else {
            return self.ended();
        };
        let events = events_of(self.alloc, self.tokens)?;
        let last = self.finding.place.last.unwrap_or(0);
        let around = block_at(events.as_slice(), within, last);
        let count = around.iter().filter(|event| event.act == act).count();
        drop(events);
        let over = count.saturating_sub(most);
        let allowed = format!(in self.alloc; "at most {most} {items} in {whole}")?;
        let found = format!(in self.alloc; "{whole} with {count} {items}, {over} too many");
        self.say(found, allowed.as_str())
    }

    /// What there are too many of, and the limit.
    fn limit(&self) -> Option<(Act, Limit)> {
        let place = self.finding.place;
        let act = match place.block? {
            Block::Points => Act::Point,
            block => match keyword_of(block, token_at(self.tokens, place.keyword)?.text)? {
                (_, Takes::Block(inner)) => Act::Begins(inner),
                _ => return None,
            },
        };
        Some((act, limit_of(act)?))
    }
}

/// The token at an offset.
fn token_at<'a>(tokens: &[Token<'a>], offset: Option<usize>) -> Option<Token<'a>> {
    let offset = offset?;
    tokens
        .iter()
        .find(|token| token.byte_offset == offset)
        .copied()
}

/// The END of a block, as what is allowed.
fn end_of_block(alloc: Global, block: Block) -> Result<String, AllocError>
    ensures { IfOk result (λ text. string_bytes text ≡ allowed_end (Some block)) }
{
    let name = block.name();
    match format!(in alloc; "the END of {name}") {
        Ok(text) => Ok(text),
        Err(error) => Err(error),
    }
}

/// The sentences of what was found and what is allowed.
#[tactic(auto, using(crate::proofs::Messages::says, crate::proofs::Messages::is_said))]
fn said(alloc: Global, found: &str, allowed: &str) -> Result<String, AllocError>
    ensures says { IfOk result (λ text. Says (string_bytes text) allowed.now) }
    ensures said { IfOk result (λ text. IsSaid (string_bytes text)) }
{
    match format!(in alloc; "Found {found}. Allowed: {allowed}.") {
        Ok(text) => Ok(text),
        Err(error) => Err(error),
    }
}

/// The keywords of a block, and its END.
fn listed(alloc: Global, block: Block) -> Result<String, AllocError>
    ensures { IfOk result (λ text. IsKeywordList block (string_bytes text)) }
{
    let names = names_of(alloc, keywords_of(block))?;
    let text = with_end(alloc, names.as_str(), block.name());
    drop(names);
    text
}

/// The names of keywords, each with a comma behind it.
fn names_of(alloc: Global, keywords: &[Keyword]) -> Result<String, AllocError>
    ensures { IfOk result
        (λ names. string_bytes names ≡
        enumerated (map (λ k. (k.0.now, k.1)) keywords.now)) }
{
    let mut names = String::new(alloc);
    for keyword in keywords {
        push_name(&mut names, keyword)?;
    }
    Ok(names)
}

/// Appends a keyword of a list.
fn push_name(out: &mut String, keyword: &Keyword) -> Result<(), AllocError>
    ensures { OnOk result
        (string_bytes out.new ≡ string_bytes out.old ++ keyword.now.0.now ++ codes ", ") }
{
    let name = keyword.0;
    write!(out, "{name}, ")
}

/// A list of names, and the END of a block.
fn with_end(alloc: Global, names: &str, end: &str) -> Result<String, AllocError>
    ensures { IfOk result
        (λ text. string_bytes text ≡ names.now ++ codes "or the END of " ++ end.now) }
{
    match format!(in alloc; "{names}or the END of {end}") {
        Ok(text) => Ok(text),
        Err(error) => Err(error),
    }
}

/// A limit: the block in which something is counted, with its words, the word of what is counted,
/// and how many there may be.
type Limit = (Block, &'static str, &'static str, usize);

/// The limit of points, or of the blocks of a kind.
fn limit_of(act: Act) -> Option<Limit> {
    match act {
        Act::Begins(Block::Layer) => Some((Block::Map, "a map", "layers", MOST_LAYERS)),
        Act::Begins(Block::Class) => Some((Block::Layer, "a layer", "classes", MOST_CLASSES)),
        Act::Begins(Block::Style) => Some((Block::Class, "a class", "styles", MOST_STYLES)),
        Act::Begins(Block::Feature) => Some((Block::Map, "a map", "features", MOST_FEATURES)),
        Act::Point => Some((Block::Map, "a map", "points", MOST_POINTS)),
        _ => None,
    }
}
