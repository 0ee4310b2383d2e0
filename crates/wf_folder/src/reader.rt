//! The text of the file `farm` is read.
ghost use Rattle.std.specs.Prelude.{◌≡◌, ◌≢◌, ◌+◌, ◌/◌, ◌%◌, ◌++◌, ℕ, List, length, IfErr, IfOk, IfNone, IfSome, IsErrOf, MatchOption};
ghost use Rattle.hex.specs.Hex.{IsBytes, encode_lower};
ghost use Rattle.wf_folder.specs.FarmFile.{IsFarmFile, IsNumberOfNodes, beginning_line, farm_text, first_line, kind_line, mark_line, nodes_line};
ghost use Rattle.wf_folder.specs.declared.farm_file.Beginning.{Beginning};
ghost use Rattle.wf_folder.specs.declared.farm_file.FarmFile.{FarmFile};

use crate::farm_file::{
    Beginning, EMPTY_LINE, FIRST_LINE, FOUND_LINE, FarmFile, KIND_LINE, MARK_DIGITS, mark_digits,
};
use crate::fault::FileFault;

/// The most nodes of a farm.
const MOST_NODES: u8 = 64;

impl FarmFile {
    /// The file with this text. Err: the bytes aren't the text of any.
    pub fn read(bytes: &[u8]) -> Result<FarmFile, FileFault>
        ensures file { IfOk result IsFarmFile }
        ensures text { IfOk result (λ file. bytes.now ≡ farm_text file) }
        ensures none { IfErr result (λ _. (file : FarmFile) → IsFarmFile file →
            bytes.now ≢ farm_text file) }
        ensures version { IsErrOf result FileFault.Version → (rest : List ℕ) →
            bytes.now ≢ first_line ++ rest }
        ensures kind { IsErrOf result FileFault.Kind → (rest : List ℕ) →
            bytes.now ≢ first_line ++ (kind_line ++ rest) }
    {
        let Some(rest) = after(bytes, FIRST_LINE) else {
            return Err(FileFault::Version);
        };
        let Some(rest) = after(rest, KIND_LINE) else {
            return Err(FileFault::Kind);
        };
        match read_fields(rest) {
            Some(file) => Ok(file),
            None => Err(FileFault::Malformed),
        }
    }
}

/// The file whose text ends so, after the line of its kind.
fn read_fields(bytes: &[u8]) -> Option<FarmFile>
    ensures file { IfSome result IsFarmFile }
    ensures some { IfSome result (λ file. bytes.now ≡
        beginning_line file.beginning ++ (nodes_line file.nodes ++ mark_line file.mark)) }
    ensures none { IfNone result ((file : FarmFile) → IsFarmFile file → bytes.now ≢
        beginning_line file.beginning ++ (nodes_line file.nodes ++ mark_line file.mark)) }
{
    let (beginning, rest) = read_beginning(bytes)?;
    let (nodes, rest) = read_nodes(rest)?;
    let mark = read_mark(rest)?;
    Some(FarmFile {
        nodes,
        beginning,
        mark,
    })
}

/// What follows a line that the bytes begin with.
pub fn after<'a>(bytes: &'a [u8], line: &[u8]) -> Option<&'a [u8]>
    ensures { MatchOption result ((rest : List ℕ) → bytes.now ≢ line.now ++ rest)
        (λ rest. bytes.now ≡ line.now ++ rest.now) }
{
    bytes.strip_prefix(line)
}

/// How the tapes began, and what follows that line.
fn read_beginning(bytes: &[u8]) -> Option<(Beginning, &[u8])>
    ensures some { IfSome result (λ x. bytes.now ≡ beginning_line x.0 ++ x.1.now) }
    ensures none { IfNone result ((beginning : Beginning) (rest : List ℕ) →
        bytes.now ≢ beginning_line beginning ++ rest) }
{
    match after(bytes, EMPTY_LINE) {
        Some(rest) => Some((Beginning::Empty, rest)),
        None => match after(bytes, FOUND_LINE) {
            Some(rest) => Some((Beginning::Found, rest)),
            None => None,
        },
    }
}

/// The number of nodes, and what follows that line.
pub(crate) fn read_nodes(bytes: &[u8]) -> Option<(u8, &[u8])>
    ensures number { IfSome result (λ x. IsNumberOfNodes x.0) }
    ensures some { IfSome result (λ x. bytes.now ≡ nodes_line x.0 ++ x.1.now) }
    ensures none { IfNone result ((nodes : ℕ) (rest : List ℕ) → IsNumberOfNodes nodes →
        bytes.now ≢ nodes_line nodes ++ rest) }
{
    match after(bytes, b"nodes ")? {
        [tens, ones, b'\n', rest @ ..] => {
            let nodes = number_of(*tens, *ones)?;
            Some((nodes, rest))
        }
        _ => None,
    }
}

/// The number of nodes with these digits.
fn number_of(tens: u8, ones: u8) -> Option<u8>
    ensures number { IfSome result IsNumberOfNodes }
    ensures some { IfSome result (λ n. (tens ≡ 48 + n / 10) × (ones ≡ 48 + n % 10)) }
    ensures none { IfNone result ((n : ℕ) → IsNumberOfNodes n → tens ≡ 48 + n / 10 →
        ones ≢ 48 + n % 10) }
{
    if !tens.is_ascii_digit() || !ones.is_ascii_digit() {
        return None;
    }
    let number = (tens - b'0') * 10 + (ones - b'0');
    if 1 <= number && number <= MOST_NODES {
        Some(number)
    } else {
        None
    }
}

/// The mark, if bytes are its line.
pub(crate) fn read_mark(bytes: &[u8]) -> Option<[u8; 16]>
    ensures mark { IfSome result (λ mark. IsBytes mark × (length mark ≡ 16)) }
    ensures some { IfSome result (λ mark. bytes.now ≡ mark_line mark) }
    ensures none { IfNone result ((mark : List ℕ) → IsBytes mark → length mark ≡ 16 →
        bytes.now ≢ mark_line mark) }
{
    let text = before(after(bytes, b"mark ")?, b"\n")?;
    mark_of(text)
}

/// What stands before a line's end that bytes end with.
pub(crate) fn before<'a>(bytes: &'a [u8], end: &[u8]) -> Option<&'a [u8]>
    ensures { MatchOption result ((front : List ℕ) → bytes.now ≢ front ++ end.now)
        (λ front. bytes.now ≡ front.now ++ end.now) }
{
    bytes.strip_suffix(end)
}

/// The mark whose digits bytes begin with, and what follows them; None if they begin with no
/// mark's.
pub fn split_mark(bytes: &[u8]) -> Option<([u8; 16], &[u8])>
    ensures mark { IfSome result (λ x. IsBytes x.0 × (length x.0 ≡ 16)) }
    ensures some { IfSome result (λ x. bytes.now ≡ encode_lower x.0 ++ x.1.now) }
    ensures none { IfNone result ((mark rest : List ℕ) → IsBytes mark → length mark ≡ 16 →
        bytes.now ≢ encode_lower mark ++ rest) }
{
    if bytes.len() < MARK_DIGITS {
        return None;
    }
    let (digits, rest) = bytes.split_at(MARK_DIGITS);
    match mark_of(digits) {
        Some(mark) => Some((mark, rest)),
        None => None,
    }
}

/// The mark with these digits.
fn mark_of(text: &[u8]) -> Option<[u8; 16]>
    ensures mark { IfSome result (λ mark. IsBytes mark × (length mark ≡ 16)) }
    ensures some { IfSome result (λ mark. text.now ≡ encode_lower mark) }
    ensures none { IfNone result ((mark : List ℕ) → IsBytes mark → length mark ≡ 16 →
        text.now ≢ encode_lower mark) }
{
    let mut mark = [0u8; 16];
    match hex::decode_to_slice(text, &mut mark) {
        Ok(()) => in_lowercase(text, mark),
        Err(_) => None,
    }
}

/// A mark, if the text has its digits in lowercase.
fn in_lowercase(text: &[u8], mark: [u8; 16]) -> Option<[u8; 16]>
    requires { length mark ≡ 16 }
    ensures same { IfSome result (λ found. found ≡ mark) }
    ensures some { IfSome result (λ _. text.now ≡ encode_lower mark) }
    ensures none { IfNone result (text.now ≢ encode_lower mark) }
{
    if mark_digits(&mark).as_slice() == text {
        Some(mark)
    } else {
        None
    }
}
