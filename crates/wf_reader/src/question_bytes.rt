//! Questions as bytes, and out of bytes.
ghost use Rattle.std.specs.Prelude.{◌≡◌, ◌≢◌, ◌+◌, ◌<◌, ◌≤◌, ◌++◌, ℕ, List, Ok, Some, length, vec_len, vec_capacity, IfErr, IfOk, IfSome, IsErrOf, OnErr, OnOk};
ghost use Rattle.std.specs.Int.{w16, to_be_bytes};
ghost use Rattle.wf_reader.specs.Question.{BeginsWithOther, IfOtherVersion, IsOfOtherVersion, IsQuestion, question_body, question_bytes, question_length, reader_version};
ghost use Rattle.wf_reader.specs.declared.question.Question.{Question as QuestionValue};

use crate::fault::QuestionFault;
use crate::question::{QUESTION_BYTES, Question, READER_VERSION};
use std::alloc::AllocError;
use wf_ballot::Seq;
use wf_folder::{FarmName, after};
use wf_frame::put;

/// What a question begins with.
const QUESTION_MARK: &[u8] = b"wf-read\n";

/// The bytes of the version, those of `READER_VERSION`.
const VERSION_BYTES: &[u8] = &[0, 1];

/// The number of bytes of a question after its version.
const BODY: usize = 66;

/// Appends the question's encoding. The only error is allocation failure; the bytes are then
/// unchanged.
pub fn encode_question(question: &Question, out: &mut Vec<u8>) -> Result<(), AllocError>
    ensures question { IsQuestion question.now }
    ensures ok { OnOk result (out.new.items ≡ out.old.items ++ question_bytes question.now) }
    ensures err { OnErr result (out.new.items ≡ out.old.items) }
{
    // The parts are in their ranges.
    let _ = question.farm.bytes();
    let _ = question.published.number();
    out.reserve(QUESTION_BYTES)?;
    put_question(out, question);
    Ok(())
}

/// Appends a question, for which there is room.
#[tactic(auto, unfolding(crate::specs::Question::question_bytes, crate::specs::Question::question_body))]
fn put_question(out: &mut Vec<u8>, question: &Question)
    requires { vec_len out.old + 76 ≤ vec_capacity out.old }
    ensures { out.new.items ≡ out.old.items ++ question_bytes question.now }
{
    put(out, QUESTION_MARK);
    put(out, &READER_VERSION.to_be_bytes());
    put(out, &question.farm.bytes());
    put(out, &question.published.bytes());
    put(out, &question.digest);
}

/// The question that bytes begin with. `Short`: they may go on as one, and more are needed. Any
/// other error stays, whatever follows.
#[tactic(auto, unfolding(crate::specs::Question::question_bytes), using(crate::proofs::Parts::other_question, crate::proofs::Parts::no_other_version))]
pub fn decode_question(bytes: &[u8]) -> Result<Question, QuestionFault>
    ensures question { IfOk result IsQuestion }
    ensures front { IfOk result (λ q. (rest : List ℕ) × (bytes.now ≡ question_bytes q ++ rest)) }
    ensures each { (q : QuestionValue) (rest : List ℕ) → IsQuestion q →
        bytes.now ≡ question_bytes q ++ rest → result ≡ Ok q }
    ensures short { IsErrOf result QuestionFault.Short → length bytes.now < question_length }
    ensures version { IfErr result (IfOtherVersion (IsOfOtherVersion bytes.now)) }
{
    match after(bytes, QUESTION_MARK) {
        Some(rest) => decode_body(after_version(rest)?),
        None => Err(fault_of_mark(bytes)),
    }
}

/// The error of bytes that don't begin as a question does.
fn fault_of_mark(bytes: &[u8]) -> QuestionFault
    ensures short { result ≡ QuestionFault.Short → length bytes.now < 8 }
    ensures version { IfOtherVersion ⊥ result }
{
    if bytes.len() < QUESTION_MARK.len() {
        QuestionFault::Short
    } else {
        QuestionFault::NotAReader
    }
}

/// What follows this version.
fn after_version(bytes: &[u8]) -> Result<&[u8], QuestionFault>
    ensures ok { IfOk result (λ rest. bytes.now ≡ to_be_bytes w16 reader_version ++ rest.now) }
    ensures err { IfErr result (λ _. (rest : List ℕ) →
        bytes.now ≢ to_be_bytes w16 reader_version ++ rest) }
    ensures short { IsErrOf result QuestionFault.Short → length bytes.now < 2 }
    ensures version { IfErr result (IfOtherVersion (BeginsWithOther bytes.now)) }
{
    match after(bytes, VERSION_BYTES) {
        Some(rest) => Ok(rest),
        None => Err(fault_of_version(bytes)),
    }
}

/// The error of bytes that don't begin with this version.
fn fault_of_version(bytes: &[u8]) -> QuestionFault
    requires other { (rest : List ℕ) → bytes.now ≢ to_be_bytes w16 reader_version ++ rest }
    ensures short { result ≡ QuestionFault.Short → length bytes.now < 2 }
    ensures version { IfOtherVersion (BeginsWithOther bytes.now) result }
{
    match bytes {
        [high, low, ..] => QuestionFault::OtherVersion(u16::from_be_bytes([*high, *low])),
        _ => QuestionFault::Short,
    }
}

/// The question with whose bytes after its version bytes begin.
fn decode_body(bytes: &[u8]) -> Result<Question, QuestionFault>
    ensures question { IfOk result IsQuestion }
    ensures front { IfOk result (λ q. (rest : List ℕ) × (bytes.now ≡ question_body q ++ rest)) }
    ensures each { (q : QuestionValue) (rest : List ℕ) → IsQuestion q →
        bytes.now ≡ question_body q ++ rest → result ≡ Ok q }
    ensures short { IsErrOf result QuestionFault.Short → length bytes.now < 66 }
    ensures version { IfErr result (IfOtherVersion ⊥) }
{
    if bytes.len() < BODY {
        return Err(QuestionFault::Short);
    }
    let (body, _) = bytes.split_at(BODY);
    match body_of(body) {
        Some(question) => Ok(question),
        None => Err(QuestionFault::Malformed),
    }
}

/// The question with these bytes after its version.
fn body_of(bytes: &[u8]) -> Option<Question>
    requires { length bytes.now ≡ 66 }
    ensures question { IfSome result IsQuestion }
    ensures some { IfSome result (λ q. bytes.now ≡ question_body q) }
    ensures each { (q : QuestionValue) → IsQuestion q → bytes.now ≡ question_body q →
        result ≡ Some q }
{
    let (farm, rest) = bytes.split_at(32);
    let (published, digest) = rest.split_at(2);
    let farm = FarmName::from_bytes(farm)?;
    let published = Seq::from_bytes(published)?;
    Some(Question {
        farm,
        published,
        digest: array(digest),
    })
}

/// Bytes as an array.
pub(crate) fn array<const N: usize>(bytes: &[u8]) -> [u8; N]
    requires { length bytes.now ≡ N }
    ensures { result ≡ bytes.now }
{
    let mut array = [0; N];
    array.copy_from_slice(bytes);
    array
}
