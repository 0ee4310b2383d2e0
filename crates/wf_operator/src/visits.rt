//! Metrics of who comes: clients, readers, and what clients were answered.
ghost use Rattle.std.specs.Prelude.{◌≡◌, OnOk, string_bytes};
ghost use Rattle.wf_operator.specs.Metrics.{with_open};

use crate::metrics::{gauge, seconds};
use std::alloc::AllocError;
use wf_visitors::Counts;

/// Appends how many connections are open, of clients and of readers. The only error is allocation
/// failure.
pub fn push_open(text: &mut String, clients: u64, readers: u64) -> Result<(), AllocError>
    ensures { OnOk result
        (string_bytes text.new ≡ with_open (string_bytes text.old) clients readers) }
{
    gauge(
        text,
        "wfarm_open_clients",
        "Connections of clients that are open",
        clients,
    )?;
    gauge(
        text,
        "wfarm_open_readers",
        "Connections of readers that are open",
        readers,
    )
}

/// Appends how many requests were answered, by path and status, and how long pictures took. The
/// only error is allocation failure.
pub fn push_requests(text: &mut String, counts: &Counts) -> Result<(), AllocError> {
    // the counts write their type themselves
    text.push_str("# HELP wfarm_requests_total Requests that were answered, by path and status\n")?;
    counts.push_to(text)?;
    seconds(
        text,
        "wfarm_drawing_seconds_total",
        "Time that answers of status 200 to /wms took",
        counts.duration("/wms", 200),
    )
}
