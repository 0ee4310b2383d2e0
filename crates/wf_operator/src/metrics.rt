//! Metrics in Prometheus' text form.
ghost use Rattle.std.specs.Prelude.{◌≡◌, OnOk, string_bytes};
ghost use Rattle.wf_operator.specs.Metrics.{with_counter, with_gauge, with_head, with_sample, with_seconds};

use std::alloc::AllocError;
use std::fmt::Write;

/// What a metric's samples are.
#[derive(Clone, Copy, PartialEq, Eq)]
pub enum MetricType {
    /// A number that goes up and down.
    Gauge,
    /// A number that only goes up while the process runs.
    Counter,
}

/// Appends the head of a metric: what it tells, which has no line break and no backslash, and its
/// type. Its samples follow.
pub fn head(
    text: &mut String,
    name: &str,
    help: &str,
    metric_type: MetricType,
) -> Result<(), AllocError>
    ensures { OnOk result
        (string_bytes text.new ≡ with_head (string_bytes text.old) name.now help.now metric_type) }
{
    match metric_type {
        MetricType::Gauge => write!(text, "# HELP {name} {help}\n# TYPE {name} gauge\n"),
        MetricType::Counter => write!(text, "# HELP {name} {help}\n# TYPE {name} counter\n"),
    }
}

/// Appends a sample without labels.
fn push_sample(text: &mut String, name: &str, value: u64) -> Result<(), AllocError>
    ensures { OnOk result
        (string_bytes text.new ≡ with_sample (string_bytes text.old) name.now value) }
{
    write!(text, "{name} {value}\n")
}

/// Appends a gauge: its head, and its one sample.
pub fn gauge(text: &mut String, name: &str, help: &str, value: u64) -> Result<(), AllocError>
    ensures { OnOk result
        (string_bytes text.new ≡ with_gauge (string_bytes text.old) name.now help.now value) }
{
    head(text, name, help, MetricType::Gauge)?;
    push_sample(text, name, value)
}

/// Appends a counter: its head, and its one sample.
pub fn counter(text: &mut String, name: &str, help: &str, value: u64) -> Result<(), AllocError>
    ensures { OnOk result
        (string_bytes text.new ≡ with_counter (string_bytes text.old) name.now help.now value) }
{
    head(text, name, help, MetricType::Counter)?;
    push_sample(text, name, value)
}

/// Appends a counter of seconds: its head, and its one sample, in which so many microseconds are
/// over.
pub fn seconds(text: &mut String, name: &str, help: &str, micros: u64) -> Result<(), AllocError>
    ensures { OnOk result
        (string_bytes text.new ≡ with_seconds (string_bytes text.old) name.now help.now micros) }
{
    head(text, name, help, MetricType::Counter)?;
    let whole = micros / 1_000_000;
    let rest = micros % 1_000_000;
    write!(text, "{name} {whole}.{rest:06}\n")
}
