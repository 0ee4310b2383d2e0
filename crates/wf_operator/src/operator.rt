//! What the operator's port answers.
ghost use Rattle.std.specs.Prelude.{◌≡◌};

use crate::lines::{canon_at, empty_map, push_line, text_of};
use crate::metrics::{MetricType, head};
use crate::page::TextPage;
use crate::replacement::{ReplaceReply, ReplaceRequest};
use crate::request::{FirstLine, is_whole, number_of, replace_request_of, request_of};
use http::StatusCode;
use std::alloc::{AllocError, Global};
use std::fmt::Write;
use std::net::SocketAddr;
use wf_client::{Incoming, Outgoing};
use wf_http::Allowed;
use wf_learner::History;
use wf_rejoin::Phase;
use wf_version::BUILD_LABELS;
use wf_visitors::{Server, ServerReply};

/// The most lines of a history that one answer has.
const MOST_LINES: u16 = 256;

/// How a process is.
#[derive(Clone, Copy, PartialEq, Eq)]
pub enum Health {
    /// It serves, and nothing is wrong.
    Fine,
    /// Its tape has failed, or what it hears of its peers can't be written.
    Halted,
    /// This peer at this address remembers more of it than it has.
    Suspended {
        peer: usize,
        address: SocketAddr,
        remembers: &'static str,
    },
    /// Its history and that of this node at this address differ, up to this sequence, and those
    /// that it hears and that agree with it are no majority: it answers no client, and doesn't
    /// vote.
    Differs {
        peer: usize,
        address: SocketAddr,
        sequence: u16,
    },
    /// Its history and that of a reader differ, up to this sequence.
    ReaderDiffers {
        sequence: u16,
    },
    /// Its folder joins, and is so far: it answers no client, and doesn't vote.
    Joins(Phase),
}

/// A process that tells an operator of itself.
pub trait Operated {
    /// What is published.
    fn history(&self) -> &History;

    /// The digest of the history up to a sequence, if it is known.
    fn digest_at(&self, number: u16) -> Option<[u8; 32]>;

    /// How it is.
    fn health(&self) -> Health;

    /// Whether it hears a majority of its farm, itself counted. None: it doesn't vote.
    fn hears_majority(&self) -> Option<bool>;

    /// The latest sequence that it has heard of, if it has been behind for too long.
    fn later(&self) -> Option<u16>;

    /// Appends its metrics, without which build it is. The only error is allocation failure.
    fn push_metrics(&self, text: &mut String) -> Result<(), AllocError>;

    /// Appends what it knows of replacements of nodes, and whether its own folder joins. Returns
    /// whether there is such a thing: there is none where it isn't a node. The only error is
    /// allocation failure.
    fn push_replacements(&self, text: &mut String) -> Result<bool, AllocError> {
        let _ = text;
        Ok(false)
    }

    /// What it answers where an operator asks it about a replacement of a node.
    fn replace(&mut self, request: &ReplaceRequest) -> ReplaceReply {
        let _ = request;
        ReplaceReply::NotANode
    }
}

/// What answers the operator of a process.
#[derive(Drop)]
pub struct Operator<O> {
    operated: O,
}

impl<O: Operated> Server for Operator<O> {
    ghost responds = { λ _ _ _ _ _. Unit {0} };

    fn answer(
        &mut self,
        alloc: Global,
        incoming: &Incoming,
        outgoing: &mut Outgoing,
    ) -> ServerReply {
        if !incoming.is_closed() && !is_whole(incoming.bytes()) {
            return ServerReply::Lacks(1);
        }
        if incoming.bytes().is_empty() {
            return ServerReply::Nothing;
        }
        match respond(alloc, &mut self.operated, incoming.bytes()) {
            Ok(page) => {
                let (status, bytes) = page.send(outgoing);
                ServerReply::Sent { status, bytes }
            }
            Err(AllocError) => ServerReply::Nothing,
        }
    }
}

impl<O: Operated> Operator<O> {
    /// What answers the operator of this process.
    pub fn new(operated: O) -> Self
        ensures { result.operated ≡ operated }
    {
        Operator { operated }
    }

    /// The process, as what it was asked has left it.
    pub fn operated(&self) -> &O
        ensures { result.now ≡ self.now.operated }
    {
        &self.operated
    }
}

/// The page for a request.
fn respond<O: Operated>(
    alloc: Global,
    operated: &mut O,
    bytes: &[u8],
) -> Result<TextPage, AllocError> {
    let FirstLine {
        method,
        path,
        query,
    } = request_of(bytes);
    if is_of_question(path) {
        if method == "POST" {
            reply_page(alloc, operated, path, query)
        } else {
            TextPage::only(alloc, Allowed::Post)
        }
    } else if method == "GET" {
        state_page(alloc, operated, path, query)
    } else {
        TextPage::only(alloc, Allowed::Get)
    }
}

/// Whether a path is one by which a node is asked about a replacement.
fn is_of_question(path: &str) -> bool {
    matches!(path, "/replace/ask" | "/replace/agree" | "/replace/begin")
}

/// What the process answers to a question about a replacement.
fn reply_page<O: Operated>(
    alloc: Global,
    operated: &mut O,
    path: &str,
    query: &str,
) -> Result<TextPage, AllocError> {
    match replace_request_of(path, query) {
        Some(request) => operated.replace(&request).page(alloc),
        None => malformed_page(alloc),
    }
}

/// The page of what the process is, at a path.
fn state_page<O: Operated>(
    alloc: Global,
    operated: &O,
    path: &str,
    query: &str,
) -> Result<TextPage, AllocError> {
    match path {
        "/healthz" => health_page(alloc, operated.health()),
        "/readyz" => readiness_page(alloc, operated),
        "/votez" => vote_page(alloc, operated),
        "/metrics" => metrics_page(alloc, operated),
        "/map" => map_page(alloc, operated.history(), query),
        "/history" => history_page(alloc, operated, query),
        "/replacements" => replacements_page(alloc, operated),
        _ => TextPage::of(alloc, StatusCode::NOT_FOUND, "not found\n"),
    }
}

/// What the process knows of replacements.
fn replacements_page<O: Operated>(alloc: Global, operated: &O) -> Result<TextPage, AllocError> {
    let mut text = String::new(alloc);
    if operated.push_replacements(&mut text)? {
        Ok(TextPage::of_text(StatusCode::OK, text))
    } else {
        TextPage::of(alloc, StatusCode::NOT_FOUND, "not found\n")
    }
}

/// Whether it serves or joins, its tape stands, and no reader's history differs.
fn health_page(alloc: Global, health: Health) -> Result<TextPage, AllocError> {
    match health {
        Health::Fine => TextPage::of(alloc, StatusCode::OK, "ok\n"),
        Health::Halted => TextPage::of(alloc, StatusCode::SERVICE_UNAVAILABLE, "halted\n"),
        Health::Suspended {
            peer,
            address,
            remembers,
        } => Ok(TextPage::of_text(
            StatusCode::SERVICE_UNAVAILABLE,
            format!(in alloc; "suspended: node {peer} at {address} remembers {remembers}\n")?,
        )),
        Health::Differs {
            peer,
            address,
            sequence,
        } => Ok(TextPage::of_text(
            StatusCode::SERVICE_UNAVAILABLE,
            format!(in alloc;
                "history differs from node {peer} at {address} at sequence {sequence}\n"
            )?,
        )),
        Health::ReaderDiffers { sequence } => Ok(TextPage::of_text(
            StatusCode::SERVICE_UNAVAILABLE,
            format!(in alloc; "history differs from a reader at sequence {sequence}\n")?,
        )),
        Health::Joins(phase) => joining_page(alloc, StatusCode::OK, phase),
    }
}

/// How far a folder is that joins.
fn joining_page(alloc: Global, status: StatusCode, phase: Phase) -> Result<TextPage, AllocError> {
    Ok(TextPage::of_text(status, format!(in alloc; "{phase}\n")?))
}

/// Whether a map that is proposed to it can be published: it hears a majority, and nothing is wrong
/// with it. That a reader's history differs stops nobody.
fn vote_page<O: Operated>(alloc: Global, operated: &O) -> Result<TextPage, AllocError> {
    let health = operated.health();
    if let Health::Joins(phase) = health {
        return joining_page(alloc, StatusCode::SERVICE_UNAVAILABLE, phase);
    }
    if !matches!(health, Health::Fine | Health::ReaderDiffers { .. }) {
        return health_page(alloc, health);
    }
    match operated.hears_majority() {
        Some(true) => TextPage::of(alloc, StatusCode::OK, "votes\n"),
        Some(false) => TextPage::of(alloc, StatusCode::SERVICE_UNAVAILABLE, "no majority\n"),
        None => TextPage::of(alloc, StatusCode::NOT_FOUND, "not found\n"),
    }
}

/// Whether it answers clients, and has all that it heard of.
fn readiness_page<O: Operated>(alloc: Global, operated: &O) -> Result<TextPage, AllocError> {
    let health = operated.health();
    if let Health::Joins(phase) = health {
        return joining_page(alloc, StatusCode::SERVICE_UNAVAILABLE, phase);
    }
    if matches!(health, Health::Suspended { .. } | Health::Differs { .. }) {
        return health_page(alloc, health);
    }
    let Some(received) = operated.later() else {
        return TextPage::of(alloc, StatusCode::OK, "ready\n");
    };
    let published = operated.history().published().number();
    Ok(TextPage::of_text(
        StatusCode::SERVICE_UNAVAILABLE,
        format!(in alloc; "behind: published {published}, heard of {received}\n")?,
    ))
}

/// The metrics, in Prometheus' text form.
fn metrics_page<O: Operated>(alloc: Global, operated: &O) -> Result<TextPage, AllocError> {
    let mut text = String::new(alloc);
    push_build(&mut text)?;
    operated.push_metrics(&mut text)?;
    Ok(TextPage::of_metrics(text))
}

/// Appends which build the program is.
fn push_build(text: &mut String) -> Result<(), AllocError> {
    head(
        text,
        "wfarm_build_info",
        "Version and revision of the program; the value is always 1",
        MetricType::Gauge,
    )?;
    write!(text, "wfarm_build_info{BUILD_LABELS} 1\n")
}

/// The canonical text of a published map.
fn map_page(alloc: Global, history: &History, query: &str) -> Result<TextPage, AllocError> {
    let Some(number) = number_of(query, "seq=") else {
        return malformed_page(alloc);
    };
    let text = if number == 0 {
        empty_map(alloc, history)?
    } else {
        published_map(alloc, history, number)?
    };
    match text {
        Some(text) => Ok(TextPage::of_text(StatusCode::OK, text)),
        None => TextPage::of(alloc, StatusCode::NOT_FOUND, "not published\n"),
    }
}

/// The canonical text of the map published under a sequence.
fn published_map(
    alloc: Global,
    history: &History,
    number: u16,
) -> Result<Option<String>, AllocError> {
    match canon_at(history, number) {
        Some(canon) => text_of(alloc, canon),
        None => Ok(None),
    }
}

/// A line a sequence.
fn history_page<O: Operated>(
    alloc: Global,
    operated: &O,
    query: &str,
) -> Result<TextPage, AllocError> {
    let Some(from) = number_of(query, "from=") else {
        return malformed_page(alloc);
    };
    let mut text = String::new(alloc);
    let from = from.max(1);
    for number in from..from.saturating_add(MOST_LINES) {
        if let Some(canon) = canon_at(operated.history(), number) {
            push_line(&mut text, number, operated.digest_at(number), canon)?;
        }
    }
    Ok(TextPage::of_text(StatusCode::OK, text))
}

/// That a query isn't one.
fn malformed_page(alloc: Global) -> Result<TextPage, AllocError> {
    TextPage::of(alloc, StatusCode::BAD_REQUEST, "malformed\n")
}
