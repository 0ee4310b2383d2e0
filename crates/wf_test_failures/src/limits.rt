//! The reads and writes of a connection: how many, within which time, and what comes of those that
//! are interrupted, fail or come too late. The clock is read once before each, so that a clock of
//! the question's own counts them and has them fail.
use crate::crowd::{Crowd, gather, write_response};
use crate::machine::TestMachine;
use crate::serve::three_nodes;
use crate::values::STATUS;
use std::fs::File;
use std::net::{Net, TcpListener, TcpStream};
use std::rt::Files;
use std::time::Clock;
use wf_serve::serve;
use wf_stream::Output;
use wf_test_table::{Answered, CaseInput, CaseWords, Transcript};

/// Serves two of three new nodes at a listener. Appends how that ends, and how often the clock was
/// read: before each read and each write.
fn write_served<
    R: Files<File = File>
        + Net<Listener = TcpListener, Stream = TcpStream>
        + Clock
        + Eprint
        + AllocGlobal,
>(rt: &R, listener: TcpListener, readings: CaseWords<'_>, answer: &mut Transcript) {
    let machine = TestMachine::new(rt, rt.alloc(), listener, "", readings);
    let mut sink = Output::new(rt.alloc(), 64);
    let is_served = serve(&machine, three_nodes(0, 2, None), &mut sink).is_ok();
    drop(sink);
    answer.text(if is_served {
        "served, "
    } else {
        "not served, "
    });
    answer.count(machine.readings());
    drop(machine);
    answer.line(" readings");
}

/// `two_clients`: what comes of a connection to node 0 of three new nodes, and of one to node 1.
pub(crate) fn two_clients<
    R: Files<File = File>
        + Net<Listener = TcpListener, Stream = TcpStream>
        + Clock
        + Eprint
        + AllocGlobal,
>(rt: &R, asked: CaseInput<'_>, answer: &mut Transcript) -> Answered {
    let Crowd { listener, clients } = gather(rt, asked.alloc, asked.input, &[STATUS], 1)?;
    write_served(rt, listener, asked.words, answer);
    for client in clients {
        answer.line("response:");
        write_response(client, answer);
    }
    Ok(())
}
