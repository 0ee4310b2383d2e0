//! The questions by their names.
use crate::{cached, edge, maps, reports, requests};
use wf_test_table::{Answered, CaseInput, Questions, Transcript, Unanswered};

/// All questions of this program.
pub(crate) struct MapQuestions;

fn about_requests(question: &str, asked: CaseInput<'_>, answer: &mut Transcript) -> Answered {
    match question {
        "request" => requests::request(asked, answer),
        "get" => maps::get(asked, answer),
        "drawn" => maps::drawn(asked, answer),
        "kept" => cached::cached(asked, answer),
        "report" => reports::report_of(asked, answer),
        _ => about_the_edge(question, asked, answer),
    }
}

fn about_the_edge(question: &str, asked: CaseInput<'_>, answer: &mut Transcript) -> Answered {
    match question {
        "hear" => edge::receive(asked, answer),
        "serve" => edge::serve_one(asked, answer),
        "refuse" => edge::reject(asked, answer),
        "serve_alone" => edge::serve_alone(asked, answer),
        "serve_published" => edge::serve_map(asked, answer),
        "serve_cached" => edge::serve_cached(asked, answer),
        _ => about_pictures(question, asked, answer),
    }
}

fn about_pictures(question: &str, asked: CaseInput<'_>, answer: &mut Transcript) -> Answered {
    match wf_test_paint::ask(question, asked, answer) {
        Err(Unanswered::UnknownQuestion) => about_nodes(question, asked, answer),
        answered => answered,
    }
}

fn about_nodes(question: &str, asked: CaseInput<'_>, answer: &mut Transcript) -> Answered {
    match wf_test_farm::ask(question, asked, answer) {
        Err(Unanswered::UnknownQuestion) => wf_test_questions::ask(question, asked, answer),
        answered => answered,
    }
}

impl Questions for MapQuestions {
    fn answer(&self, mut asked: CaseInput<'_>, answer: &mut Transcript) -> Answered {
        about_requests(asked.words.word(), asked, answer)
    }
}
