//! The table language itself.
use wf_test_table::{Answered, CaseInput, Questions, Transcript, Unanswered, run_table};

// The questions of an inner table: `echo` answers the input, in `memory` an allocation fails.
struct Echo;

impl Questions for Echo {
    fn answer(&self, asked: CaseInput<'_>, answer: &mut Transcript) -> Answered {
        match asked.words.rest() {
            "echo" => answer.bytes(asked.input),
            "echo line" => {
                answer.bytes(asked.input);
                answer.line("");
            }
            "memory" => return Err(Unanswered::Memory),
            "echo badly" => return Err(Unanswered::BadWords),
            _ => return Err(Unanswered::UnknownQuestion),
        }
        Ok(())
    }
}

/// `table`: the report of a table of cases about `echo`.
pub(crate) fn table(asked: CaseInput<'_>, answer: &mut Transcript) -> Answered {
    if run_table(asked.alloc, &Echo, asked.text()?, answer).is_err() {
        answer.line("memory ran out");
    }
    Ok(())
}
