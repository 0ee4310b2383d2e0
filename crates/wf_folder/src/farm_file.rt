//! The file `farm` of a folder, and its text.
ghost use Rattle.std.specs.Prelude.{◌≡◌, ◌≤◌, ◌++◌, length, IfOk, OnOk};
ghost use Rattle.hex.specs.Hex.{encode_lower};
ghost use Rattle.wf_folder.specs.FarmFile.{IsFarmFile, IsNumberOfNodes, beginning_line, farm_text, mark_line, nodes_line};

use std::alloc::{AllocError, Global};

/// The first line: what the file is, and its version.
pub(crate) const FIRST_LINE: &[u8] = b"wfarm folder 1\n";

/// The line of the folder's kind: all nodes of a farm are served by one program.
pub(crate) const KIND_LINE: &[u8] = b"kind serve\n";

/// The line of a folder whose tapes began empty.
pub(crate) const EMPTY_LINE: &[u8] = b"began empty\n";

/// The line of a folder that had tapes before it had this file.
pub(crate) const FOUND_LINE: &[u8] = b"began found\n";

/// The number of hexadecimal digits of a mark.
pub(crate) const MARK_DIGITS: usize = 32;

/// How the tapes of a folder began.
#[derive(Clone, Copy, Debug, PartialEq, Eq)]
pub enum Beginning {
    /// Empty, with this file: all that they hold was written since.
    Empty,
    /// They were found, without this file.
    Found,
}

/// What the file `farm` says of a folder that `serve` uses.
#[derive(Clone, Copy, Debug, PartialEq, Eq)]
pub struct FarmFile {
    /// The number of the farm's nodes, 1 to 64.
    pub nodes: u8,
    /// How the tapes began.
    pub beginning: Beginning,
    /// Random bits by which the folder is distinguished from any other.
    pub mark: [u8; 16],
}

impl FarmFile {
    /// The file of a folder of 1 to 64 nodes.
    pub fn new(nodes: u8, beginning: Beginning, mark: [u8; 16]) -> FarmFile
        requires { IsNumberOfNodes nodes }
        ensures file { IsFarmFile result }
        ensures nodes { result.nodes ≡ nodes }
        ensures beginning { result.beginning ≡ beginning }
        ensures mark { result.mark ≡ mark }
    {
        FarmFile {
            nodes,
            beginning,
            mark,
        }
    }

    /// The file's text, five lines in ASCII. The only error is allocation failure.
    ///
    /// ```text
    /// wfarm folder 1
    /// kind serve
    /// began empty
    /// nodes 03
    /// mark 0123456789abcdef0123456789abcdef
    /// ```
    pub fn text(&self, alloc: Global) -> Result<Vec<u8>, AllocError>
        requires { IsFarmFile self.now }
        ensures { IfOk result (λ text. text.items ≡ farm_text self.now) }
    {
        let mut text = Vec::new(alloc);
        text.extend_from_slice(FIRST_LINE)?;
        text.extend_from_slice(KIND_LINE)?;
        text.extend_from_slice(beginning_line(self.beginning))?;
        push_nodes(&mut text, self.nodes)?;
        push_mark(&mut text, &self.mark)?;
        Ok(text)
    }
}

/// The line that says how the tapes began.
fn beginning_line(beginning: Beginning) -> &'static [u8]
    ensures { result.now ≡ beginning_line beginning }
{
    match beginning {
        Beginning::Empty => EMPTY_LINE,
        Beginning::Found => FOUND_LINE,
    }
}

/// Appends the line with the number of nodes, in two digits.
pub(crate) fn push_nodes(text: &mut Vec<u8>, nodes: u8) -> Result<(), AllocError>
    requires { nodes ≤ 64 }
    ensures { OnOk result (text.new.items ≡ text.old.items ++ nodes_line nodes) }
{
    text.extend_from_slice(b"nodes ")?;
    text.extend_from_slice(&[b'0' + nodes / 10, b'0' + nodes % 10, b'\n'])
}

/// Appends the line with the mark.
pub(crate) fn push_mark(text: &mut Vec<u8>, mark: &[u8; 16]) -> Result<(), AllocError>
    requires { length mark.now ≡ 16 }
    ensures { OnOk result (text.new.items ≡ text.old.items ++ mark_line mark.now) }
{
    text.extend_from_slice(b"mark ")?;
    text.extend_from_slice(&mark_digits(mark))?;
    text.extend_from_slice(b"\n")
}

/// The digits of a mark, two a byte.
pub fn mark_digits(mark: &[u8; 16]) -> [u8; 32]
    requires { length mark.now ≡ 16 }
    ensures { result ≡ encode_lower mark.now }
{
    let mut digits = [b'0'; MARK_DIGITS];
    hex::encode_to_slice(mark.as_slice(), &mut digits).unwrap();
    digits
}
