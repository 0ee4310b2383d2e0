//! How many requests were answered, by path and status.

use std::alloc::{AllocError, Global};
use std::fmt::Write;

/// How many requests to one path were answered with one status.
#[derive(Clone, Copy)]
struct Count {
    path: &'static str,
    status: u16,
    number: u64,
    // the time that the answers took, in microseconds
    duration: u64,
}

/// How many requests were answered, by path and status.
#[derive(Drop)]
pub struct Counts {
    counts: Vec<Count>,
}

impl Counts {
    /// None was answered.
    pub(crate) fn new(alloc: Global) -> Self {
        Counts {
            counts: Vec::new(alloc),
        }
    }

    /// Counts a request to this path that was answered with this status after so many microseconds
    /// of work. It isn't counted if an allocation fails.
    pub(crate) fn add(&mut self, path: &str, status: u16, duration: u64) {
        let path = known_path(path);
        for count in &mut self.counts {
            if count.path == path && count.status == status {
                count.number = count.number.saturating_add(1);
                count.duration = count.duration.saturating_add(duration);
                return;
            }
        }
        let _ = self.counts.push(Count {
            path,
            status,
            number: 1,
            duration,
        });
    }

    /// The time that the answers of this path with this status took, in microseconds.
    pub fn duration(&self, path: &str, status: u16) -> u64 {
        for count in &self.counts {
            if count.path == path && count.status == status {
                return count.duration;
            }
        }
        0
    }

    /// Appends the counts as metrics.
    pub fn push_to(&self, text: &mut String) -> Result<(), AllocError> {
        text.push_str("# TYPE wfarm_requests_total counter\n")?;
        for count in &self.counts {
            let Count {
                path,
                status,
                number,
                ..
            } = *count;
            write!(
                text,
                "wfarm_requests_total{{path=\"{path}\",status=\"{status}\"}} {number}\n"
            )?;
        }
        Ok(())
    }
}

/// A path that is counted by itself, or `other`.
fn known_path(path: &str) -> &'static str {
    match path {
        "/wms" => "/wms",
        "/status" => "/status",
        "/publish" => "/publish",
        _ => "other",
    }
}
