//! Reports of exceptions, also each by itself.
use wf_test_table::{Answered, CaseInput, CaseWords, Transcript, Unanswered};
use wf_wms::{Exception, Parameter, exception_report};

fn parameter_of(name: &str) -> Result<Parameter, Unanswered> {
    match name {
        "REQUEST" => Ok(Parameter::Request),
        "SERVICE" => Ok(Parameter::Service),
        "BGCOLOR" => Ok(Parameter::BackgroundColor),
        "MAPSEQ" => Ok(Parameter::MapSequence),
        _ => Err(Unanswered::BadWords),
    }
}

fn exception_alone(name: &str) -> Result<Exception, Unanswered> {
    match name {
        "InvalidCRS" => Ok(Exception::InvalidCrs),
        "InvalidFormat" => Ok(Exception::InvalidFormat),
        "CurrentUpdateSequence" => Ok(Exception::CurrentUpdateSequence),
        "InvalidUpdateSequence" => Ok(Exception::InvalidUpdateSequence),
        "OperationNotSupported" => Ok(Exception::OperationNotSupported),
        "MapNotPublished" => Ok(Exception::MapNotPublished),
        _ => Err(Unanswered::BadWords),
    }
}

fn exception_of(mut words: CaseWords<'_>) -> Result<Exception, Unanswered> {
    match words.word() {
        "MissingParameter" => Ok(Exception::MissingParameter(parameter_of(words.rest())?)),
        "BadValue" => Ok(Exception::BadValue(parameter_of(words.rest())?)),
        "LayerNotDefined" => Ok(Exception::LayerNotDefined(words.count()?)),
        "StyleNotDefined" => Ok(Exception::StyleNotDefined(words.count()?)),
        name => exception_alone(name),
    }
}

/// `report EXCEPTION`: its report.
pub(crate) fn report_of(asked: CaseInput<'_>, answer: &mut Transcript) -> Answered {
    match exception_report(asked.alloc, exception_of(asked.words)?) {
        Ok(document) => {
            answer.bytes(&document);
            drop(document);
        }
        Err(_) => answer.cut(),
    }
    Ok(())
}
