//! Which nodes of a farm the program serves over HTTP, and where.
//!
//! A [`Service`] gives the number of nodes, the port, the number of connections, the number of
//! pictures cached for each node, and the folder of the tapes. `specs/Service.antt` has the ranges
//! of its numbers. wf_line reads one from a command line, wf_serve serves it.
//!
//! It is plain data and promises nothing.
#![tactic(auto)]

mod service;

pub use service::Service;
