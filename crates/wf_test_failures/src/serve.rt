//! Three nodes that are served, on tapes in a folder.
ghost use Rattle.std.specs.Prelude.{◌≤◌};
ghost use Rattle.wf_service.specs.Service.{IsService};

use crate::crowd::{Crowd, gather, port_of, write_responses};
use crate::machine::TestMachine;
use crate::tape::{new_folder, write_file};
use crate::values::{PUBLISH, STATUS, TORN, unanswered};
use std::alloc::{AllocError, Global};
use std::fs;
use std::fs::File;
use std::net::{Net, TcpListener, TcpStream};
use std::rt::Files;
use std::time::Clock;
use wf_serve::{ServeFault, Service, listen, serve};
use wf_stream::Output;
use wf_test_table::{Answered, CaseInput, CaseWords, Transcript, Unanswered};

/// The folder of the nodes, and their tapes.
const FOLDER: &str = "three";

const TAPES: [&str; 3] = [
    "three/node-0.tape",
    "three/node-1.tape",
    "three/node-2.tape",
];

const FARM: &str = "three/farm";

/// The file `farm` of a folder of two nodes.
const FILE_OF_TWO: &[u8] =
    b"wfarm folder 1\nkind serve\nbegan empty\nnodes 02\nmark 0123456789abcdef0123456789abcdef\n";

/// Three nodes for this many connections.
pub(crate) fn three_nodes(port: u16, requests: u32, state: Option<&str>) -> Service<'_>
    requires { requests ≤ 3 }
    ensures { IsService result }
{
    Service {
        nodes: 3,
        port,
        requests,
        cache: 1,
        state,
        log: false,
    }
}

/// Appends how serving ends, and whether the line with this port was written.
fn write_outcome(
    alloc: Global,
    outcome: Result<(), ServeFault>,
    port: u16,
    written: &[u8],
    answer: &mut Transcript,
) -> Result<(), AllocError> {
    match outcome {
        Ok(()) => answer.text("served"),
        Err(fault) => answer.value(fault),
    }
    let mut line = Transcript::new(alloc);
    line.text("listening ");
    line.value(port);
    line.line("");
    let is_line = match line.finished_text() {
        Ok(line) => Ok(line == written),
        Err(error) => Err(error),
    };
    drop(line);
    answer.text(match is_line? {
        true => ", with the port's line",
        false if written.is_empty() => ", nothing written",
        false => ", another line written",
    });
    Ok(())
}

/// Appends a file's bytes, and a line feed.
fn write_content<R: Files + AllocGlobal>(rt: &R, path: &str, answer: &mut Transcript) -> Answered {
    match fs::read(rt, path) {
        Ok(bytes) => {
            answer.bytes(&bytes);
            answer.line("");
            drop(bytes);
            Ok(())
        }
        Err(error) => Err(unanswered(error)),
    }
}

/// Three nodes on a machine.
#[derive(Clone, Copy)]
pub(crate) struct ThreeNodes<'r, R> {
    pub(crate) rt: &'r R,
}

impl<
    'r,
    R: Files<File = File>
        + Net<Listener = TcpListener, Stream = TcpStream>
        + Clock
        + Eprint
        + AllocGlobal,
> ThreeNodes<'r, R> {
    /// Serves nodes that open in the folder to three connections at a listener for any port of this
    /// machine. Appends how that ends, and whether the folder was locked all the while.
    fn write_served(
        &self,
        listener: TcpListener,
        answer: &mut Transcript,
    ) -> Result<(), AllocError> {
        let port = port_of(&listener);
        let machine = TestMachine::new(
            self.rt,
            self.rt.alloc(),
            listener,
            FOLDER,
            CaseWords::new(""),
        );
        let mut sink = Output::new(self.rt.alloc(), 64);
        let outcome = serve(&machine, three_nodes(0, 3, Some(FOLDER)), &mut sink);
        let written = write_outcome(self.rt.alloc(), outcome, port, sink.bytes(), answer);
        drop(sink);
        answer.text(if machine.is_bound_here() {
            ", here"
        } else {
            ", at another address"
        });
        answer.line(if machine.is_locked() {
            ", locked"
        } else {
            ", not locked"
        });
        drop(machine);
        written
    }

    /// Starts the nodes on the folder, for a client that has sent this request and two that ask for
    /// the status. Appends how that ends, and the responses.
    fn write_start(&self, request: &[u8], answer: &mut Transcript) -> Answered {
        let crowd = gather(self.rt, self.rt.alloc(), request, &[STATUS, STATUS], 1)?;
        let Crowd { listener, clients } = crowd;
        let served = self.write_served(listener, answer);
        write_responses(clients, answer);
        served?;
        Ok(())
    }

    /// `starts`: what is published is there after a new start, and on each node.
    pub(crate) fn starts(&self, asked: CaseInput<'_>, answer: &mut Transcript) -> Answered {
        new_folder(self.rt, FOLDER)?;
        for word in asked.words.rest().split(' ') {
            let request = match word {
                "publish" => PUBLISH,
                "status" => STATUS,
                _ => return Err(Unanswered::BadWords),
            };
            self.write_start(request, answer)?;
        }
        Ok(())
    }

    /// `shortened`: nodes start on long tapes, and shorten them.
    pub(crate) fn shortened(&self, asked: CaseInput<'_>, answer: &mut Transcript) -> Answered {
        new_folder(self.rt, FOLDER)?;
        for path in TAPES {
            write_file(self.rt, path, asked.input)?;
        }
        self.write_start(STATUS, answer)?;
        for path in TAPES {
            write_content(self.rt, path, answer)?;
        }
        Ok(())
    }

    /// Serves the nodes to nobody at this port. Appends how that ends, and what is on the first
    /// tape then.
    fn write_empty_start(&self, port: u16, answer: &mut Transcript) -> Answered {
        let mut sink = Output::new(self.rt.alloc(), 64);
        let outcome = serve(self.rt, three_nodes(port, 0, Some(FOLDER)), &mut sink);
        let written = write_outcome(self.rt.alloc(), outcome, port, sink.bytes(), answer);
        drop(sink);
        written?;
        answer.text(": ");
        write_content(self.rt, TAPES[0], answer)
    }

    /// `taken`: a start where the port or the folder is taken changes no tape, of which opening
    /// would remove the torn record; the start after it does.
    pub(crate) fn taken(&self, _asked: CaseInput<'_>, answer: &mut Transcript) -> Answered {
        new_folder(self.rt, FOLDER)?;
        let [first, second, third] = TAPES;
        write_file(self.rt, first, TORN)?;
        write_file(self.rt, second, b"")?;
        write_file(self.rt, third, b"")?;
        let port = self.write_on_taken_port(answer)?;
        self.write_on_locked_folder(port, answer)?;
        self.write_empty_start(port, answer)
    }

    /// Appends a start where the port is taken. Returns the port.
    fn write_on_taken_port(&self, answer: &mut Transcript) -> Result<u16, Unanswered> {
        match listen(self.rt, 0) {
            Ok(listener) => {
                let port = port_of(&listener);
                let written = self.write_empty_start(port, answer);
                drop(listener);
                written?;
                Ok(port)
            }
            Err(error) => Err(unanswered(error)),
        }
    }

    /// Appends a start where the folder is locked.
    fn write_on_locked_folder(&self, port: u16, answer: &mut Transcript) -> Answered {
        match fs::open(self.rt, FOLDER) {
            Ok(folder) => {
                answer.text(if folder.try_lock().is_ok() {
                    "locked, "
                } else {
                    "not locked, "
                });
                let written = self.write_empty_start(port, answer);
                drop(folder);
                written
            }
            Err(error) => Err(unanswered(error)),
        }
    }

    /// `foreign`: three nodes start neither without the other tapes, nor on a folder of two nodes.
    pub(crate) fn foreign(&self, _asked: CaseInput<'_>, answer: &mut Transcript) -> Answered {
        new_folder(self.rt, FOLDER)?;
        let [first, second, third] = TAPES;
        write_file(self.rt, first, TORN)?;
        self.write_empty_start(0, answer)?;
        write_file(self.rt, second, b"")?;
        write_file(self.rt, third, b"")?;
        write_file(self.rt, FARM, FILE_OF_TWO)?;
        self.write_empty_start(0, answer)?;
        write_content(self.rt, FARM, answer)
    }
}
