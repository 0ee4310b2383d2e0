//! The program's commands.

use wf_service::Service;

/// How the report of a check is written.
#[derive(Clone, Copy)]
pub enum Format {
    /// As text for whoever wrote the mapfile.
    Text,
    /// As a line of JSON for an editor.
    Json,
}

/// A parsed command line.
#[derive(Clone, Copy)]
pub enum Line<'a> {
    /// Answer a request about the mapfile on standard input, at an update sequence.
    Caps { seq: u16, query: &'a str },
    /// Answer a request about the mapfile on standard input, as a server that has published only
    /// this map.
    Draw { query: &'a str },
    /// Write the canonical text of the mapfile on standard input.
    Canon,
    /// Check the mapfile on standard input, and report its first error in a format.
    Check { format: Format },
    /// List what the tape in a file holds, or the tapes in a folder; with a sequence, write the map
    /// that the tape in the file has as published under it.
    Tape { file: &'a str, map: Option<u16> },
    /// Play the script on standard input.
    Run,
    /// Play the script on standard input, and let its messages cross a connection.
    Wire,
    /// Serve nodes over HTTP.
    Serve(Service<'a>),
}
