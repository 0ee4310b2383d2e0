//! Nodes that open on a tape of these bytes.
use std::alloc::Global;
use wf_journal::OpenFault;
use wf_node::Node;
use wf_tape::MemoryTape;
use wf_test_calls::{Member, bytes_on, tape_of, write_field, write_length};
use wf_test_table::{Answered, CaseInput, Transcript, Unanswered};

/// The node on a tape; or the tape again, and why the node doesn't open.
pub(crate) fn open(
    alloc: Global,
    member: Member,
    tape: MemoryTape,
) -> Result<Node<MemoryTape>, (MemoryTape, OpenFault)> {
    Node::open(alloc, tape, member.node(), member.nodes())
}

/// The node on an empty tape.
pub(crate) fn begin(alloc: Global, member: Member) -> Result<Node<MemoryTape>, Unanswered> {
    match open(alloc, member, MemoryTape::new(Vec::new(alloc))) {
        Ok(node) => Ok(node),
        Err(refused) => {
            drop(refused);
            Err(Unanswered::Memory)
        }
    }
}

/// Appends what the node has published that opens on a tape of these bytes, or the error; and how
/// many bytes are on the tape then.
pub(crate) fn ask(mut asked: CaseInput<'_>, answer: &mut Transcript) -> Answered {
    let member = Member::parse(&mut asked.words)?;
    let tape = tape_of(asked.alloc, asked.input)?;
    match open(asked.alloc, member, tape) {
        Ok(node) => write_opened(node, answer),
        Err((tape, fault)) => write_rejected(tape, fault, answer),
    }
    Ok(())
}

fn write_opened(node: Node<MemoryTape>, answer: &mut Transcript) {
    write_field("published ", node.published(), answer);
    answer.text(", ");
    write_length(bytes_on(node.close()), answer);
}

/// Appends why no node opens on the tape, and how many bytes are on it.
pub(crate) fn write_rejected(tape: MemoryTape, fault: OpenFault, answer: &mut Transcript) {
    let left = bytes_on(tape);
    if let OpenFault::Memory = fault {
        answer.cut();
    }
    answer.value(fault);
    answer.text(", ");
    write_length(left, answer);
}
