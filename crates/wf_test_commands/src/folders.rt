//! The file `farm` of a folder, and starts on folders.
ghost use Rattle.wf_folder.specs.FarmFile.{IsFarmFile};

use std::alloc::Global;
use wf_folder::{Beginning, FarmFile, FoundFile, Presence, Start, StartRejection, admit};
use wf_test_table::{Answered, CaseInput, Transcript, Unanswered};

fn write_beginning(beginning: Beginning, answer: &mut Transcript) {
    answer.text(match beginning {
        Beginning::Empty => ", began empty",
        Beginning::Found => ", began found",
    });
}

fn write_text_again(alloc: Global, file: &FarmFile, text: &[u8], answer: &mut Transcript)
    requires { IsFarmFile file.now }
{
    match file.text(alloc) {
        Ok(again) => {
            answer.line(if again.as_slice() == text {
                ", the same again"
            } else {
                ", another text"
            });
            drop(again);
        }
        Err(_) => answer.line(", out of memory"),
    }
}

/// `farm_file`: what a file `farm` with this text says, or why it isn't one.
pub(crate) fn farm_file(asked: CaseInput<'_>, answer: &mut Transcript) -> Answered {
    match FarmFile::read(asked.input) {
        Ok(file) => {
            answer.value(file.nodes);
            answer.text(" nodes");
            write_beginning(file.beginning, answer);
            write_text_again(asked.alloc, &file, asked.input, answer);
        }
        Err(fault) => {
            answer.value(fault);
            answer.line("");
        }
    }
    Ok(())
}

/// The tapes that a text has: `x` one with a byte, `0` one without, `-` none.
fn tapes_of(text: &str) -> [Presence; 64] {
    let mut tapes = [Presence::Absent; 64];
    for (number, byte) in text.as_bytes().iter().enumerate() {
        if let Some(tape) = tapes.get_mut(number) {
            *tape = match byte {
                b'x' => Presence::Written,
                b'0' => Presence::Empty,
                _ => Presence::Absent,
            };
        }
    }
    tapes
}

/// What is found as the file: `none`, the text of one, spelled as the number of its nodes, or
/// `bad`.
fn read_case_file(word: &str) -> FoundFile {
    match word {
        "none" => FoundFile::Nothing,
        _ => match word.parse::<u8>() {
            Ok(nodes) => FoundFile::File(FarmFile {
                nodes,
                beginning: Beginning::Empty,
                mark: [7; 16],
            }),
            Err(_) => FoundFile::Bad(match FarmFile::read(word.as_bytes()) {
                Ok(_) => return FoundFile::Nothing,
                Err(fault) => fault,
            }),
        },
    }
}

fn write_start(start: Result<Start, StartRejection>, answer: &mut Transcript) {
    match start {
        Ok(Start::New) => answer.line("new"),
        Ok(Start::Own(_)) => answer.line("own"),
        Ok(Start::TakenOver) => answer.line("taken over"),
        Err(why) => {
            answer.value(why);
            if let StartRejection::SurplusTape(tape) | StartRejection::MissingTape(tape) = why {
                answer.text(" ");
                answer.count(tape);
            }
            answer.line("");
        }
    }
}

/// `admit N`: whether a farm of N nodes may start on a folder: its file, a space, its tapes.
pub(crate) fn ask_admission(mut asked: CaseInput<'_>, answer: &mut Transcript) -> Answered {
    let nodes = asked.words.byte()?;
    let Some((file, tapes)) = asked.text()?.split_once(' ') else {
        return Err(Unanswered::BadWords);
    };
    if nodes > 64 {
        return Err(Unanswered::BadWords);
    }
    write_start(
        admit(nodes, read_case_file(file), tapes_of(tapes).as_slice()),
        answer,
    );
    Ok(())
}
