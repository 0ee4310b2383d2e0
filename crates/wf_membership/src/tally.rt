//! How many maps were rejected, by error.
ghost use Rattle.std.specs.Prelude.{◌≡◌, []};

use std::alloc::{AllocError, Global};
use std::fmt::Write;
use wf_operator::{MetricType, head};

/// How many maps were rejected for one error, named by its number.
#[derive(Drop)]
struct ErrorCount {
    error: String,
    number: u64,
}

/// How many maps were rejected, by error.
#[derive(Drop)]
pub struct Tally {
    counts: Vec<ErrorCount>,
}

/// The statuses of a publish that was rejected for its map.
const BAD_REQUEST: u16 = 400;

impl Tally {
    /// None was rejected.
    pub fn new(alloc: Global) -> Self
        ensures { result.counts.items ≡ [] }
    {
        Tally {
            counts: Vec::new(alloc),
        }
    }

    /// Counts a response with this status, if it is that a map is rejected: then its body begins
    /// with the number of an error. It isn't counted if an allocation fails.
    pub fn note(&mut self, alloc: Global, status: u16, response: &[u8]) {
        if status != BAD_REQUEST {
            return;
        }
        if let Some(error) = error_of(response) {
            let _ = self.add(alloc, error);
        }
    }

    /// Counts an error.
    fn add(&mut self, alloc: Global, error: &str) -> Result<(), AllocError> {
        for count in &mut self.counts {
            if count.error.as_str() == error {
                count.number = count.number.saturating_add(1);
                return Ok(());
            }
        }
        let error = String::from_str(alloc, error)?;
        self.counts.push(ErrorCount { error, number: 1 })?;
        Ok(())
    }

    /// Appends the counts as metrics.
    pub fn push_to(&self, text: &mut String) -> Result<(), AllocError> {
        head(
            text,
            "wfarm_rejected_maps_total",
            "Maps that were rejected, by the number of their error",
            MetricType::Counter,
        )?;
        for count in &self.counts {
            let error = count.error.as_str();
            let number = count.number;
            write!(
                text,
                "wfarm_rejected_maps_total{{error=\"{error}\"}} {number}\n"
            )?;
        }
        Ok(())
    }
}

/// The number of the error with which the body of a response begins: a capital letter and digits.
fn error_of(response: &[u8]) -> Option<&str> {
    let text = str::from_utf8(response).ok()?;
    let (_, body) = text.split_once("\r\n\r\n")?;
    let (line, _) = body.split_once('\n')?;
    let (word, _) = line.split_once(' ').unwrap_or((line, ""));
    if is_error(word) { Some(word) } else { None }
}

/// Whether a word is the number of an error.
fn is_error(word: &str) -> bool {
    let digits = word.len().saturating_sub(1);
    1 <= digits
        && digits <= 3
        && word.bytes().take(1).all(|byte| byte.is_ascii_uppercase())
        && word.bytes().skip(1).all(|byte| byte.is_ascii_digit())
}
