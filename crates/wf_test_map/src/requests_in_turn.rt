//! Requests that a node serves, one after the other.
use crate::exchange::{Exchange, write_outcome};
use crate::failing_streams::Taking;
use std::alloc::Global;
use wf_codec::Message;
use wf_edge::{Served, serve_one};
use wf_node::Node;
use wf_tape::Tape;
use wf_test_calls::{CallMaps, Member, record_sent};
use wf_test_table::{Answered, CaseInput, Transcript, Unanswered};

/// Appends, for each request, what becomes of it, what is written and what is sent. The node of the
/// words is new, on that tape.
pub(crate) fn serve<T: Tape + Drop>(
    mut asked: CaseInput<'_>,
    tape: T,
    answer: &mut Transcript,
) -> Answered {
    match (Member::parse(&mut asked.words), Exchange::read(asked.words)) {
        (Ok(member), Ok(way)) => serve_by(asked, member, tape, way, answer),
        _ => {
            drop(tape);
            Err(Unanswered::BadWords)
        }
    }
}

fn serve_by<T: Tape + Drop>(
    asked: CaseInput<'_>,
    member: Member,
    tape: T,
    way: Exchange,
    answer: &mut Transcript,
) -> Answered {
    match Node::open(asked.alloc, tape, member.node(), member.nodes()) {
        Ok(mut node) => {
            let reported = serve_each(asked, &mut node, way, answer);
            drop(node);
            reported
        }
        Err(refused) => {
            drop(refused);
            Err(Unanswered::Memory)
        }
    }
}

/// Appends the same for a node that is open already. Bytes of 0, which no head can hold, separate
/// the requests.
pub(crate) fn serve_each<T: Tape>(
    asked: CaseInput<'_>,
    node: &mut Node<T>,
    way: Exchange,
    answer: &mut Transcript,
) -> Answered {
    for request in asked.input.split(|byte| *byte == 0) {
        write_serving(asked.alloc, node, way, request, answer)?;
    }
    Ok(())
}

fn write_serving<T: Tape>(
    alloc: Global,
    node: &mut Node<T>,
    way: Exchange,
    request: &[u8],
    answer: &mut Transcript,
) -> Answered {
    match write_served(alloc, node, way, request, answer) {
        Ok(messages) => {
            drop(messages);
            Ok(())
        }
        Err(unanswered) => Err(unanswered),
    }
}

/// Appends the same of one request, and returns what is sent.
pub(crate) fn write_served<T: Tape>(
    alloc: Global,
    node: &mut Node<T>,
    way: Exchange,
    request: &[u8],
    answer: &mut Transcript,
) -> Result<Vec<Message>, Unanswered> {
    let mut reader = way.reader(request)?;
    let mut writer = way.writer(alloc);
    let served = serve_one(alloc, &mut reader, &mut writer, node);
    write(&served, way, writer.inner(), answer);
    drop(writer);
    drop(reader);
    Ok(served.messages)
}

/// Appends what became of a request, what was written and what is sent.
pub(crate) fn write(served: &Served, way: Exchange, writer: &Taking, answer: &mut Transcript) {
    write_outcome(served.outcome, answer);
    way.write_written(writer, answer);
    record_sent(&served.messages, CallMaps::NONE, answer);
}
