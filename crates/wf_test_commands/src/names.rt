//! Names of the commands' crate that users rely on, each named once: `wf_test_names` has those of
//! the crates below.

use wf_commands::{
    Host, Line, NodeServer, line, run_canon, run_caps, run_draw, run_script, run_serve, wire_script,
};
use wf_farm::Copies;
use wf_stream::{Bytes, Output};

/// The calls.
pub fn calls() {
    let _ = line::<String>;
    let _ = run_caps::<Bytes<'_>, Output>;
    let _ = run_canon::<Bytes<'_>, Output>;
    let _ = run_draw::<Bytes<'_>, Output>;
    let _ = run_script::<Bytes<'_>, Output>;
    let _ = wire_script::<Bytes<'_>, Output, Copies>;
}

/// The call that serves nodes, whatever does it.
pub fn serve_calls<V: NodeServer>() {
    let _ = run_serve::<Output, V>;
}

/// The machine, which serves nodes.
pub struct Machine<'a, R> {
    pub host: &'a Host<'a, R>,
}

/// The lines of the first commands.
pub fn is_first(line: Line<'_>) -> bool {
    match line {
        Line::Caps { seq: _, query: _ } | Line::Canon | Line::Run | Line::Wire => true,
        Line::Serve(_service) => true,
        Line::Draw { query: _ } | Line::Check { format: _ } | Line::Tape { file: _, map: _ } => {
            false
        }
    }
}
