//! Command lines about processes of a farm.
use crate::lines::{status_of, words_of, write_bracketed, write_rejection};
use wf_line::{
    ClearLine, InitLine, NodeCommand, NodeLine, ProcessCommand, ReplicaLine, names_process_command,
    process_command,
};
use wf_test_table::{Answered, CaseInput, Transcript};

fn write_if_any(name: &str, text: Option<&str>, answer: &mut Transcript) {
    if let Some(text) = text {
        answer.texts(&[", ", name]);
        write_bracketed(text, answer);
    }
}

fn write_init(line: &InitLine<'_>, answer: &mut Transcript) {
    answer.text("init ");
    answer.value(line.id);
    answer.text(" of ");
    answer.value(line.nodes);
    write_bracketed(line.state, answer);
    write_bracketed(line.farm, answer);
    write_if_any("from", line.from, answer);
    answer.line(if line.replaces { ", replaces" } else { "" });
}

fn write_node(line: &NodeLine<'_>, answer: &mut Transcript) {
    answer.text("node");
    write_bracketed(line.state, answer);
    write_bracketed(line.peers, answer);
    write_bracketed(line.http, answer);
    write_if_any("listen", line.listen, answer);
    write_if_any("admin", line.admin, answer);
    write_if_any("readers", line.readers, answer);
    answer.text(", kept ");
    answer.value(line.cache);
    answer.text(", clients ");
    answer.value(line.clients);
    answer.text(if line.log { ", log" } else { "" });
    answer.line(if line.may_replace {
        ", may replace"
    } else {
        ""
    });
}

fn write_clear(line: &ClearLine<'_>, answer: &mut Transcript) {
    answer.text("clear");
    write_bracketed(line.state, answer);
    answer.line("");
}

fn write_replica(line: &ReplicaLine<'_>, answer: &mut Transcript) {
    answer.text("replica");
    write_bracketed(line.state, answer);
    write_bracketed(line.farm, answer);
    write_bracketed(line.peers, answer);
    write_bracketed(line.http, answer);
    write_if_any("readers", line.readers, answer);
    write_if_any("admin", line.admin, answer);
    answer.text(", kept ");
    answer.value(line.cache);
    answer.line(if line.log { ", log" } else { "" });
}

fn write_words(asked: &CaseInput<'_>, words: &[&str], answer: &mut Transcript) {
    if !names_process_command(words) {
        answer.line("another command");
        return;
    }
    match process_command(asked.alloc, words) {
        Ok(ProcessCommand::Node(NodeCommand::Init(line))) => write_init(&line, answer),
        Ok(ProcessCommand::Node(NodeCommand::Node(line))) => write_node(&line, answer),
        Ok(ProcessCommand::Node(NodeCommand::Clear(line))) => write_clear(&line, answer),
        Ok(ProcessCommand::Replica(line)) => write_replica(&line, answer),
        Err(error) => write_rejection(status_of(error), answer),
    }
}

/// `process_line`: what a command line asks for of a node or a replica, that it is rejected, or
/// that it is one of another command. Its words have spaces between.
pub(crate) fn process_line(asked: CaseInput<'_>, answer: &mut Transcript) -> Answered {
    let words = words_of(asked.alloc, asked.text()?, ' ')?;
    write_words(&asked, &words, answer);
    drop(words);
    Ok(())
}
