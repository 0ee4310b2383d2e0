//! The text of a service exception, and its report in XML.
ghost use Rattle.std.specs.Prelude.{◌≡◌, ◌++◌, OnOk, IfOk, option_map, codes, decimal};
ghost use Rattle.wf_wms.specs.Exception.{name_of, code_of, words_of, code_attribute, exception_report};

use crate::exception::{Exception, Parameter};
use crate::xml::{write_decimal, write_text};
use std::alloc::{AllocError, Global};

impl Parameter {
    /// The parameter's name, in capitals.
    pub fn name(self) -> &'static str
        ensures { result.now ≡ name_of self }
    {
        match self {
            Parameter::Request => "REQUEST",
            Parameter::Service => "SERVICE",
            Parameter::Version => "VERSION",
            Parameter::UpdateSequence => "UPDATESEQUENCE",
            Parameter::MapSequence => "MAPSEQ",
            Parameter::Format => "FORMAT",
            Parameter::Layers => "LAYERS",
            Parameter::Styles => "STYLES",
            Parameter::Crs => "CRS",
            Parameter::Bbox => "BBOX",
            Parameter::Width => "WIDTH",
            Parameter::Height => "HEIGHT",
            Parameter::BackgroundColor => "BGCOLOR",
        }
    }
}

impl Exception {
    /// The standard's code, if this exception has one (OGC 06-042, table E.1).
    pub fn code(self) -> Option<&'static str>
        ensures { option_map (λ code. code.now) result ≡ code_of self }
    {
        match self {
            Exception::MissingParameter(_) | Exception::BadValue(_) | Exception::MapNotPublished =>
                None,
            Exception::LayerNotDefined(_) => Some("LayerNotDefined"),
            Exception::StyleNotDefined(_) => Some("StyleNotDefined"),
            Exception::InvalidCrs => Some("InvalidCRS"),
            Exception::InvalidFormat => Some("InvalidFormat"),
            Exception::CurrentUpdateSequence => Some("CurrentUpdateSequence"),
            Exception::InvalidUpdateSequence => Some("InvalidUpdateSequence"),
            Exception::OperationNotSupported => Some("OperationNotSupported"),
        }
    }
}

// Appends text about a parameter, then its name.
fn write_named(words: &str, parameter: Parameter, document: &mut Vec<u8>) -> Result<(), AllocError>
    ensures { OnOk result
        (document.new.items ≡ document.old.items ++ (words.now ++ name_of parameter)) }
{
    write_text(words, document)?;
    write_text(parameter.name(), document)
}

// Appends "layer 2 is not defined", or the same for a style.
fn write_not_defined(thing: &str, entry: usize, document: &mut Vec<u8>) -> Result<(), AllocError>
    ensures { OnOk result (document.new.items
        ≡ document.old.items ++ (thing.now ++ (decimal entry ++ codes " is not defined"))) }
{
    write_text(thing, document)?;
    write_decimal(entry, document)?;
    write_text(" is not defined", document)
}

// Appends the exception's message.
fn write_words(exception: Exception, document: &mut Vec<u8>) -> Result<(), AllocError>
    ensures { OnOk result (document.new.items ≡ document.old.items ++ words_of exception) }
{
    match exception {
        Exception::MissingParameter(parameter) => write_named(
            "missing parameter ",
            parameter,
            document,
        ),
        Exception::BadValue(parameter) => write_named("bad value of ", parameter, document),
        Exception::LayerNotDefined(entry) => write_not_defined("layer ", entry, document),
        Exception::StyleNotDefined(entry) => write_not_defined("style ", entry, document),
        Exception::InvalidCrs => write_text("CRS is not offered", document),
        Exception::InvalidFormat => write_text("format is not offered", document),
        Exception::CurrentUpdateSequence => write_text("update sequence is current", document),
        Exception::InvalidUpdateSequence => write_text("update sequence is invalid", document),
        Exception::OperationNotSupported => write_text("operation is not supported", document),
        Exception::MapNotPublished => write_text("map sequence is not published here", document),
    }
}

// Appends the attribute with the exception's code, if it has one.
fn write_code(exception: Exception, document: &mut Vec<u8>) -> Result<(), AllocError>
    ensures { OnOk result
        (document.new.items ≡ document.old.items ++ code_attribute (code_of exception)) }
{
    if let Some(code) = exception.code() {
        write_text(" code=\"", document)?;
        write_text(code, document)?;
        write_text("\"", document)?;
    }
    Ok(())
}

const REPORT_OPENING: &str = "<?xml version=\"1.0\" encoding=\"UTF-8\"?>
<ServiceExceptionReport version=\"1.3.0\" xmlns=\"http://www.opengis.net/ogc\">
<ServiceException";

const REPORT_CLOSING: &str = "</ServiceException>
</ServiceExceptionReport>
";

/// The report of one exception, as bytes of an XML document (OGC 06-042, 7.3.3.11 and annex E.2):
/// the answer to a request that fails a check. Returns Ok unless allocation fails.
pub fn exception_report(alloc: Global, exception: Exception) -> Result<Vec<u8>, AllocError>
    ensures { IfOk result (λ document. document.items ≡ exception_report exception) }
{
    let mut document = Vec::new(alloc);
    write_text(REPORT_OPENING, &mut document)?;
    write_code(exception, &mut document)?;
    write_text(">", &mut document)?;
    write_words(exception, &mut document)?;
    write_text(REPORT_CLOSING, &mut document)?;
    Ok(document)
}
