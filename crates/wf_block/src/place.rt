//! Where the reader of a mapfile is.
ghost use Rattle.std.specs.Prelude.{◌≡◌, None};
ghost use Rattle.wf_block.specs.Blocks.{block_name};

/// A block of a mapfile (MapServer mapfile reference).
#[derive(Clone, Copy, PartialEq, Eq)]
pub enum Block {
    Map,
    Projection,
    Web,
    Metadata,
    Layer,
    Class,
    Style,
    Label,
    Feature,
    Points,
}

impl Block {
    /// The keyword that begins it.
    pub fn name(self) -> &'static str
        ensures { result.now ≡ block_name self }
    {
        match self {
            Block::Map => "MAP",
            Block::Projection => "PROJECTION",
            Block::Web => "WEB",
            Block::Metadata => "METADATA",
            Block::Layer => "LAYER",
            Block::Class => "CLASS",
            Block::Style => "STYLE",
            Block::Label => "LABEL",
            Block::Feature => "FEATURE",
            Block::Points => "POINTS",
        }
    }
}

/// Where the reader of a mapfile is. After an error it is where the error was found. Byte offsets
/// count from the front of the file, from 0.
#[derive(Clone, Copy)]
pub struct Place {
    /// The innermost block that is open: none before MAP and after its END.
    pub block: Option<Block>,
    /// The byte offset of the keyword that begins it.
    pub begin: usize,
    /// The byte offset of the keyword, of the text of PROJECTION, of the key of a pair or of the
    /// first number of a point, if the reader is at one or behind it.
    pub keyword: Option<usize>,
    /// The block that ended last.
    pub ended: Option<Block>,
    /// A keyword that it requires and doesn't have.
    pub lacking: Option<&'static str>,
    /// The byte offset of the token that was read last.
    pub last: Option<usize>,
}

impl Place {
    /// The front of a file.
    pub fn front() -> Self
        ensures block { result.block ≡ None }
        ensures keyword { result.keyword ≡ None }
        ensures ended { result.ended ≡ None }
        ensures lacking { result.lacking ≡ None }
        ensures last { result.last ≡ None }
    {
        Place {
            block: None,
            begin: 0,
            keyword: None,
            ended: None,
            lacking: None,
            last: None,
        }
    }
}
