//! Pieces of XML documents. Each call appends its whole piece and returns Ok unless allocation
//! fails.
ghost use Rattle.std.specs.Prelude.{◌≡◌, ◌++◌, OnOk, decimal};
ghost use Rattle.wf_wms.specs.Xml.{escape, escape_byte};

use std::alloc::AllocError;

// Appends a byte, escaped.
#[tactic(auto, unfolding(crate::specs::Xml::escape_byte))]
fn write_escaped_byte(byte: u8, document: &mut Vec<u8>) -> Result<(), AllocError>
    ensures { OnOk result (document.new.items ≡ document.old.items ++ escape_byte byte) }
{
    match byte {
        b'&' => document.extend_from_slice(b"&amp;"),
        b'<' => document.extend_from_slice(b"&lt;"),
        b'>' => document.extend_from_slice(b"&gt;"),
        b'"' => document.extend_from_slice(b"&quot;"),
        b'\'' => document.extend_from_slice(b"&apos;"),
        b'\t' => document.extend_from_slice(b"&#9;"),
        b'\n' => document.extend_from_slice(b"&#10;"),
        b'\r' => document.extend_from_slice(b"&#13;"),
        _ => Ok(document.push(byte)?),
    }
}

/// Appends a text as it is.
pub(crate) fn write_text(text: &str, document: &mut Vec<u8>) -> Result<(), AllocError>
    ensures { OnOk result (document.new.items ≡ document.old.items ++ text.now) }
{
    document.extend_from_slice(text.as_bytes())
}

/// Appends a text, escaped for character data and for attribute values.
pub(crate) fn write_escaped(text: &[u8], document: &mut Vec<u8>) -> Result<(), AllocError>
    ensures { OnOk result (document.new.items ≡ document.old.items ++ escape text.now) }
{
    for byte in text {
        write_escaped_byte(*byte, document)?;
    }
    Ok(())
}

/// Appends a number in decimal digits.
pub(crate) fn write_decimal(number: usize, document: &mut Vec<u8>) -> Result<(), AllocError>
    ensures { OnOk result (document.new.items ≡ document.old.items ++ decimal number) }
{
    let digits = number.to_string(*document.allocator())?;
    document.extend_from_slice(digits.as_bytes())
}
