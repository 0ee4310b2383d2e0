use thiserror::Error;

/// Why bytes aren't the text of a file `farm` that this program reads.
#[derive(Clone, Copy, Debug, PartialEq, Eq, Error)]
pub enum FileFault {
    /// They don't begin with the line of this version.
    #[error("not a farm file of version 1")]
    Version,
    /// They begin with it, but the next line doesn't say that the folder is one of `serve`.
    #[error("not a folder of wfarm serve")]
    Kind,
    /// They begin with both lines, but what follows is malformed.
    #[error("malformed")]
    Malformed,
}

/// Why bytes aren't the text of a node's file `farm` that this program reads.
#[derive(Clone, Copy, Debug, PartialEq, Eq, Error)]
pub enum NodeFileFault {
    /// They don't begin with the line of this version or of the one before.
    #[error("not a farm file of version 1 or 2")]
    Version,
    /// They begin with it, but the next line doesn't say that the folder is one of `node`.
    #[error("not a folder of wfarm node")]
    Kind,
    /// They begin with both lines, but what follows is malformed.
    #[error("malformed")]
    Malformed,
}
