//! A finding as JSON.
ghost use Rattle.std.specs.Prelude.{◌≡◌, ◌++◌, IfOk, codes};
ghost use Rattle.std.specs.String.{string_bytes};
ghost use Rattle.serde_json.specs.View.{view};
ghost use Rattle.wf_check.specs.Json.{IsJsonReport, IsLineOfJson, as_data, code};

use crate::fault::CheckFault;
use crate::finding::Finding;
use crate::message::message;
use serde_json::{Value, json};
use std::alloc::{AllocError, Global};

/// A finding as one line of JSON (RFC 8259), for editors: an object of its `line` and `column`,
/// from 1, columns in characters; its byte `offset`, from 0; its `error`, such as M5; and the
/// `message`, what was found there and is allowed there. The only error is allocation failure.
#[tactic(auto, using(crate::proofs::Reports::json_reported))]
pub fn report_as_json(alloc: Global, finding: &Finding<'_>) -> Result<String, AllocError>
    ensures { IfOk result (λ text. IsJsonReport finding.now (string_bytes text)) }
{
    let message = message(alloc, finding)?;
    let text = line_of_json(alloc, finding, message.as_str());
    drop(message);
    text
}

/// The line of a finding with this message.
fn line_of_json(alloc: Global, finding: &Finding<'_>, message: &str) -> Result<String, AllocError>
    ensures { IfOk result
        (λ text. IsLineOfJson (as_data finding.now message.now) (string_bytes text)) }
{
    let value = value_of(alloc, finding, message)?;
    let text = value.to_string(alloc);
    drop(value);
    end_line(text?)
}

/// Ends a text by a line feed.
fn end_line(mut text: String) -> Result<String, AllocError>
    ensures { IfOk result (λ line. string_bytes line ≡ string_bytes text ++ codes "\n") }
{
    text.push('\n')?;
    Ok(text)
}

/// The object of a finding with this message.
#[tactic(auto, unfolding(crate::specs::Json::as_data))]
fn value_of(alloc: Global, finding: &Finding<'_>, message: &str) -> Result<Value, AllocError>
    ensures { IfOk result (λ value. view value ≡ as_data finding.now message.now) }
{
    let column = finding.line.column();
    let line = finding.line.number;
    let error = code(finding.fault);
    let offset = finding.offset;
    json!(in alloc; {"column": column, "error": error, "line": line, "message": message, "offset": offset})
}

/// The number of an error, without its offset.
#[tactic(auto, unfolding(crate::specs::Json::code))]
fn code(fault: CheckFault) -> &'static str
    ensures { result.now ≡ code fault }
{
    match fault {
        CheckFault::Map(fault) => fault.code(),
        CheckFault::TooBig => "K1",
    }
}
