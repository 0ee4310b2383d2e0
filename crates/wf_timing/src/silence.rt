//! When a stream was silent for too long.
ghost use Rattle.std.specs.Prelude.{◌≤◌, ◌+◌, ◌↔◌, IsTrue};
ghost use Rattle.wf_timing.specs.Moment.{silence};

/// For how many milliseconds a peer's stream may be silent: five heartbeats.
pub const SILENCE: u64 = 5_000;

/// Whether a stream on which something came last at the moment `received` was silent for too long,
/// and is to be closed.
pub fn is_silent(received: u64, now: u64) -> bool
    ensures { IsTrue result ↔ (received + silence ≤ now) }
{
    now.saturating_sub(received) >= SILENCE
}
