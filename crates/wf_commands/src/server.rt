//! What serves the nodes of a `serve` line.
ghost use Rattle.std.specs.Prelude.{ℕ, List, Option, Result};
ghost use Rattle.wf_commands.specs.FailureCount.{FailsLast};
ghost use Rattle.wf_serve.specs.StartFault.{CountsWrites};
ghost use Rattle.wf_commands.specs.ServeRun.{IsMachineServing};
ghost use Rattle.wf_service.specs.Service.{IsService};
ghost use Rattle.wf_serve.specs.declared.fault.ServeFault.{ServeFault};
ghost use Rattle.wf_service.specs.declared.service.Service.{Service};

use std::fs::File;
use std::net::{Net, TcpListener, TcpStream};
use std::rt::Files;
use std::time::Clock;
use wf_serve::{ServeFault, Service, serve};
use wf_stream::Sink;
use wf_tape::{FileTape, MemoryTape, Tape};

/// What serves nodes: the machine, or in a test what stands for it.
pub trait NodeServer {
    /// What it means that this server serves a service: by the bytes written before and after, if
    /// known, and the result.
    ghost serves: { Self → Service → Option (List ℕ) → Option (List ℕ) → Result (Unit {0}) ServeFault → Type 0 };

    /// Serves the nodes of a service, and writes the line with their port.
    fn serve<K: Sink>(&self, service: Service<'_>, sink: &mut K) -> Result<(), ServeFault>
        requires { IsService service }
        ensures served { serves self.now service.entry (K.written sink.old) (K.written sink.new)
            result }
        ensures writes { CountsWrites result (K.failures sink.old) (K.failures sink.new) }
        ensures last { FailsLast K.Sink sink.old sink.new };
}

/// The machine: its sockets, files and clock.
#[derive(Drop)]
pub struct Host<'a, R>(pub &'a R);

/// Serves by [`wf_serve::serve`], which writes the line `listening P`: P is the service's port, or
/// if that is 0 one chosen by the system.
impl<
    'a,
    R: Files<File = File>
        + Eprint
        + Clock
        + Net<Listener = TcpListener, Stream = TcpStream>
        + AllocGlobal,
> NodeServer for Host<'a, R> {
    ghost serves = { λ _ service old new result. IsMachineServing ⟦<MemoryTape as Tape>⟧ ⟦<FileTape<&'a R> as Tape>⟧ service old new result };

    #[tactic(auto, using(crate::proofs::Last::line_fails_last, crate::proofs::Ended::machine_serves))]
    fn serve<K: Sink>(&self, service: Service<'_>, sink: &mut K) -> Result<(), ServeFault> {
        serve(self.0, service, sink)
    }
}
