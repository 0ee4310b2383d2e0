//! A finding as text.
ghost use Rattle.std.specs.Prelude.{◌≡◌, IfOk, Some};
ghost use Rattle.std.specs.String.{string_bytes};
ghost use Rattle.wf_check.specs.Finding.{IsReport, at, fault_text, reported};
ghost use Rattle.wf_check.specs.Message.{IsFindingMessage};

use crate::fault::CheckFault;
use crate::finding::Finding;
use crate::line::NumberedLine;
use crate::message::message;
use crate::shown::{Shown, first_part, last_part};
use std::alloc::{AllocError, Global};
use std::fmt;

/// The report of a finding: its line and column with the error's number, the line with a mark under
/// the offset, and what was found there and is allowed there. Of a canonical text that is too long
/// also what each layer has of it. The only error is allocation failure.
pub fn report(alloc: Global, finding: &Finding<'_>) -> Result<String, AllocError>
    ensures { IfOk result (λ text. IsReport finding.now (string_bytes text)) }
{
    let message = message(alloc, finding)?;
    let text = report_with(alloc, finding, message.as_str());
    drop(message);
    text
}

/// The report of a finding with this message.
fn report_with(alloc: Global, finding: &Finding<'_>, message: &str) -> Result<String, AllocError>
    requires { IsFindingMessage finding.now message.now }
    ensures { IfOk result (λ text. IsReport finding.now (string_bytes text)) }
{
    let number = finding.line.number;
    let column = finding.line.column();
    let fault = fault_text(alloc, finding.fault)?;
    let line = finding.line;
    let picture = format!(in alloc; "{line}")?;
    let text = reported(
        alloc,
        number,
        column,
        fault.as_str(),
        picture.as_str(),
        message,
    );
    drop(picture);
    drop(fault);
    text
}

/// A line and a column, an error, the picture of a line and a message.
fn reported(
    alloc: Global,
    number: usize,
    column: usize,
    fault: &str,
    picture: &str,
    message: &str,
) -> Result<String, AllocError>
    ensures { IfOk result
        (λ text. string_bytes text ≡ reported number column fault.now picture.now message.now) }
{
    match format!(in alloc; "line {number}, column {column}: {fault}\n{picture}{message}\n") {
        Ok(text) => Ok(text),
        Err(error) => Err(error),
    }
}

/// The number of an error, with its offset if it has one.
fn fault_text(alloc: Global, fault: CheckFault) -> Result<String, AllocError>
    ensures { IfOk result (λ text. string_bytes text ≡ fault_text fault) }
{
    match fault {
        CheckFault::Map(fault) => {
            let code = fault.code();
            match fault.byte_offset() {
                Some(offset) => text_at(alloc, code, offset),
                None => format!(in alloc; "{code}"),
            }
        }
        CheckFault::TooBig => format!(in alloc; "K1"),
    }
}

/// The number of an error with its offset.
fn text_at(alloc: Global, code: &str, offset: usize) -> Result<String, AllocError>
    ensures { IfOk result (λ text. string_bytes text ≡ at code.now (Some offset)) }
{
    match format!(in alloc; "{code} at {offset}") {
        Ok(text) => Ok(text),
        Err(error) => Err(error),
    }
}

/// A line that is cut at an offset, with a mark under the offset. Of a long line at most 50 bytes
/// on each side are shown.
impl fmt::Display for NumberedLine<'_> {
    fn fmt<W: fmt::Write>(&self, f: &mut fmt::Formatter<W>) -> fmt::Result {
        let whole = self.after.strip_suffix(b"\r").unwrap_or(self.after);
        let before = last_part(self.before);
        let after = first_part(whole);
        let (cut, gap) = if before.len() < self.before.len() {
            ("...", "   ")
        } else {
            ("", "")
        };
        let more = if after.len() < whole.len() { "..." } else { "" };
        let left = Shown::Text(before);
        let right = Shown::Text(after);
        let blank = Shown::Blank(before);
        writeln!(f, "    {cut}{left}{right}{more}")?;
        writeln!(f, "    {gap}{blank}^")
    }
}
