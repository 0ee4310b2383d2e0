//! The questions by their names.
use crate::{broken, commands, folders, fused, lines, played, process, process_lines};
use std::fs::File;
use std::net::{Net, TcpListener, TcpStream};
use std::rt::Files;
use std::time::Clock;
use wf_farm::Copies;
use wf_link::Connection;
use wf_test_simulation::{ask_play, ask_plays};
use wf_test_table::{Answered, CaseInput, Questions, Transcript, Unanswered};

/// All questions of this program. It opens files of this machine, and connections of it to itself.
#[derive(Drop)]
pub(crate) struct CommandQuestions<'r, R>(pub(crate) &'r R);

impl<
    'r,
    R: Files<File = File>
        + Net<Listener = TcpListener, Stream = TcpStream>
        + Clock
        + Eprint
        + AllocGlobal,
> Questions for CommandQuestions<'r, R> {
    fn answer(&self, mut asked: CaseInput<'_>, answer: &mut Transcript) -> Answered {
        match asked.words.word() {
            "admit" => folders::ask_admission(asked, answer),
            "canon" => commands::canon(asked, answer),
            "canon_broken" => broken::canon_broken(asked, answer),
            "canon_twice" => commands::canon_twice(asked, answer),
            "caps" => commands::caps(asked, answer),
            "check" => commands::check(asked, answer),
            "farm_file" => folders::farm_file(asked, answer),
            "fused" => fused::fused(asked, answer),
            "line" => lines::line_of(asked, answer),
            "process_line" => process_lines::process_line(asked, answer),
            "program" => process::program_of(self.0, asked, answer),
            "play" => ask_play(self.0, asked, answer),
            "plays" => ask_plays(self.0, asked, answer),
            "run" => lines::run(asked, &mut Connection::new(self.0), answer),
            "script" => played::script(asked, &mut Copies, answer),
            "script_cut" => played::script_cut(asked, answer),
            "script_losing" => played::script_losing(asked, answer),
            "script_wired" => played::script(asked, &mut Connection::new(self.0), answer),
            question => match wf_test_store::ask(self.0, question, asked, answer) {
                Err(Unanswered::UnknownQuestion) => {
                    wf_test_failures::ask(self.0, question, asked, answer)
                }
                answered => answered,
            },
        }
    }
}
