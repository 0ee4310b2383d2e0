//! What a log has lines of.

use std::fmt;
use std::net::SocketAddr;

/// How much an event matters.
#[derive(Clone, Copy, PartialEq, Eq)]
pub enum Level {
    /// Nothing to do.
    Info,
    /// Something was lost or rejected, or a request wasn't fulfilled.
    Warn,
    /// A part of the work has stopped.
    Error,
}

impl fmt::Display for Level {
    fn fmt<W: fmt::Write>(&self, f: &mut fmt::Formatter<W>) -> fmt::Result {
        f.write_str(match self {
            Level::Info => "info",
            Level::Warn => "warn",
            Level::Error => "error",
        })
    }
}

/// An event of a log, which is displayed as its line.
pub trait LogEntry: fmt::Display {
    /// How much it matters.
    fn level(&self) -> Level;
}

/// What has become of a client.
#[derive(Clone, Copy)]
pub enum Visit<'a> {
    /// Its request was answered. What the response to a POST says is in it too.
    Answered {
        address: SocketAddr,
        said: Option<&'a str>,
        method: &'a str,
        path: &'a str,
        status: u16,
        bytes: u64,
        millis: u64,
    },
    /// It was closed without an answer.
    Unanswered {
        millis: u64,
    },
}

impl LogEntry for Visit<'_> {
    fn level(&self) -> Level {
        match self {
            Visit::Answered { .. } => Level::Info,
            Visit::Unanswered { .. } => Level::Warn,
        }
    }
}

impl fmt::Display for Visit<'_> {
    fn fmt<W: fmt::Write>(&self, f: &mut fmt::Formatter<W>) -> fmt::Result {
        match self {
            Visit::Answered {
                address,
                said,
                method,
                path,
                status,
                bytes,
                millis,
            } => {
                write!(
                    f,
                    "request method={method:?} path={path:?} status={status} bytes={bytes} millis={millis} client={address}"
                )?;
                match said {
                    Some(said) => write!(f, " said={said:?}"),
                    None => Ok(()),
                }
            }
            Visit::Unanswered { millis } => write!(f, "unanswered millis={millis}"),
        }
    }
}
