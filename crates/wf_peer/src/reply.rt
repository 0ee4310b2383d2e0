//! What a node answers to a greeting.
ghost use Rattle.std.specs.Prelude.{◌≡◌, ◌+◌, ◌≤◌, ◌<◌, ◌++◌, ◌∷◌, ℕ, List, Option, Ok, Err, get_or, IfOk, IsErrOf, OnErr, OnOk, length, vec_len, vec_capacity};
ghost use Rattle.wf_peer.specs.GreetingReply.{IsProgressOrNone, IsGreetingReply, cause_bytes, rejection_byte, rejection_bytes, remembered_bytes, remembered_length, reply_bytes, reply_length};
ghost use Rattle.wf_peer.specs.Greeting.{IsProgress, progress_bytes};
ghost use Rattle.wf_peer.specs.declared.progress.Progress.{Progress as ProgressValue};
ghost use Rattle.wf_peer.specs.declared.rejection.PeerRejection.{PeerRejection as RejectionValue};
ghost use Rattle.wf_peer.specs.declared.reply.GreetingReply.{GreetingReply as ReplyValue};

use crate::decoder::{PROGRESS, after_version, decode, greeting_length, progress_of};
use crate::encoder::put_progress;
use crate::fault::GreetingFault;
use crate::greeting::Greeting;
use crate::progress::Progress;
use crate::rejection::PeerRejection;
use std::alloc::AllocError;
use wf_folder::after;
use wf_frame::put;

/// What a rejection begins with.
const REJECTION_MARK: &[u8] = b"wf-nope\n";

/// The number of bytes of a rejection up to its cause.
const CAUSE_BYTES: usize = 11;

/// The most bytes of a rejection.
pub const REJECTION_BYTES: usize = 66;

/// What a node sends back once on a connection on which it was greeted.
#[derive(Clone, Copy, Debug, PartialEq, Eq)]
pub enum GreetingReply {
    /// The peer is let in; this is the node's own greeting.
    Greeting(Greeting),
    /// It isn't, for this cause; and what the node remembers of the peer, if it does.
    Rejected(PeerRejection, Option<Progress>),
}

/// Appends a rejection's encoding, with what is remembered of the peer. The only error is
/// allocation failure, which changes nothing.
pub fn encode_rejection(
    why: PeerRejection,
    remembered: &Option<Progress>,
    out: &mut Vec<u8>,
) -> Result<(), AllocError>
    ensures ok { OnOk result (out.new.items ≡ out.old.items ++ rejection_bytes why remembered.now) }
    ensures err { OnErr result (out.new.items ≡ out.old.items) }
{
    out.reserve(REJECTION_BYTES)?;
    put_rejection(why, remembered, out);
    Ok(())
}

/// Appends a rejection, for which there is room.
#[tactic(auto, using(crate::proofs::Decoded::two_pieces), unfolding(crate::specs::GreetingReply::rejection_bytes))]
fn put_rejection(why: PeerRejection, remembered: &Option<Progress>, out: &mut Vec<u8>)
    requires { vec_len out.old + 66 ≤ vec_capacity out.old }
    ensures { out.new.items ≡ out.old.items ++ rejection_bytes why remembered.now }
{
    put_cause(why, out);
    put_remembered(remembered, out);
}

/// Appends a rejection up to its cause, for which there is room.
fn put_cause(why: PeerRejection, out: &mut Vec<u8>)
    requires { vec_len out.old + 66 ≤ vec_capacity out.old }
    ensures items { out.new.items ≡ out.old.items ++ cause_bytes why }
    ensures room { vec_len out.new + 55 ≤ vec_capacity out.new }
{
    put(
        out,
        &[
            b'w',
            b'f',
            b'-',
            b'n',
            b'o',
            b'p',
            b'e',
            b'\n',
            0,
            2,
            why.byte(),
        ],
    );
}

/// Appends what is remembered, for which there is room.
fn put_remembered(remembered: &Option<Progress>, out: &mut Vec<u8>)
    requires { vec_len out.old + 55 ≤ vec_capacity out.old }
    ensures { out.new.items ≡ out.old.items ++ remembered_bytes remembered.now }
{
    match remembered {
        None => put(out, &[0]),
        Some(progress) => {
            put(out, &[1]);
            put_progress(out, progress);
        }
    }
}

/// The reply that bytes begin with. `Short`: they may go on as one, and more are needed. Any other
/// error stays, whatever follows.
#[tactic(auto, unfolding(crate::specs::GreetingReply::rejection_bytes, crate::specs::Greeting::greeting_bytes))]
pub fn decode_reply(bytes: &[u8]) -> Result<GreetingReply, GreetingFault>
    ensures reply { IfOk result IsGreetingReply }
    ensures front { IfOk result (λ reply. (rest : List ℕ)
        × (bytes.now ≡ reply_bytes reply ++ rest)) }
    ensures each { (reply : ReplyValue) (rest : List ℕ) → IsGreetingReply reply →
        bytes.now ≡ reply_bytes reply ++ rest → result ≡ Ok reply }
    ensures short { IsErrOf result GreetingFault.Short → length bytes.now < reply_length bytes.now }
    ensures begins { (reply : ReplyValue) (more : List ℕ) → IsGreetingReply reply →
        0 < length more → bytes.now ++ more ≡ reply_bytes reply → result ≡ Err GreetingFault.Short }
{
    match after(bytes, REJECTION_MARK) {
        Some(rest) => match decode_rejection(after_version(rest)?) {
            Ok((why, remembered)) => Ok(GreetingReply::Rejected(why, remembered)),
            Err(fault) => Err(fault),
        },
        None => match decode(bytes) {
            Ok(greeting) => Ok(GreetingReply::Greeting(greeting)),
            Err(fault) => Err(fault),
        },
    }
}

/// How many bytes the reply has that begins so; while fewer than 12 are there, or fewer than 132 of
/// a greeting, the least that it has. A reader that reads no more than these before it decodes
/// reads nothing of what follows a reply.
pub fn reply_length(bytes: &[u8]) -> usize
    ensures value { result ≡ reply_length bytes.now }
    ensures within { (reply : ReplyValue) (more rest : List ℕ) → IsGreetingReply reply →
        bytes.now ++ more ≡ reply_bytes reply ++ rest → result ≤ length (reply_bytes reply) }
{
    if bytes.len() < CAUSE_BYTES + 1 {
        return CAUSE_BYTES + 1;
    }
    if bytes[5] == REJECTION_MARK[5] {
        if bytes[CAUSE_BYTES] == 0 {
            CAUSE_BYTES + 1
        } else {
            REJECTION_BYTES
        }
    } else {
        greeting_length(bytes)
    }
}

/// The cause that bytes begin with, and what is remembered.
fn decode_rejection(bytes: &[u8]) -> Result<(PeerRejection, Option<Progress>), GreetingFault>
    ensures remembered { IfOk result (λ x. IsProgressOrNone x.1) }
    ensures front { IfOk result (λ x. (rest : List ℕ)
        × (bytes.now ≡ rejection_byte x.0 ∷ (remembered_bytes x.1 ++ rest))) }
    ensures each { (why : RejectionValue) (p : Option ProgressValue) (rest : List ℕ) →
        IsProgressOrNone p → bytes.now ≡ rejection_byte why ∷ (remembered_bytes p ++ rest) →
        result ≡ Ok (why, p) }
    ensures short { IsErrOf result GreetingFault.Short →
        length bytes.now < 1 + remembered_length (get_or bytes.now 1 0) }
    ensures begins { (why : RejectionValue) (p : Option ProgressValue) (more : List ℕ) →
        IsProgressOrNone p → 0 < length more →
        bytes.now ++ more ≡ rejection_byte why ∷ remembered_bytes p →
        result ≡ Err GreetingFault.Short }
{
    match bytes {
        [] => Err(GreetingFault::Short),
        [byte, rest @ ..] => match PeerRejection::of_byte(*byte) {
            Some(why) => match decode_remembered(rest) {
                Ok(remembered) => Ok((why, remembered)),
                Err(fault) => Err(fault),
            },
            None => Err(GreetingFault::Malformed),
        },
    }
}

/// What is remembered, with whose bytes these begin.
fn decode_remembered(bytes: &[u8]) -> Result<Option<Progress>, GreetingFault>
    ensures remembered { IfOk result IsProgressOrNone }
    ensures front { IfOk result (λ p. (rest : List ℕ) × (bytes.now ≡ remembered_bytes p ++ rest)) }
    ensures each { (p : Option ProgressValue) (rest : List ℕ) → IsProgressOrNone p →
        bytes.now ≡ remembered_bytes p ++ rest → result ≡ Ok p }
    ensures short { IsErrOf result GreetingFault.Short →
        length bytes.now < remembered_length (get_or bytes.now 0 0) }
    ensures begins { (p : Option ProgressValue) (more : List ℕ) → IsProgressOrNone p →
        0 < length more → bytes.now ++ more ≡ remembered_bytes p →
        result ≡ Err GreetingFault.Short }
{
    match bytes {
        [] => Err(GreetingFault::Short),
        [tag, rest @ ..] => match decode_tagged(*tag, rest) {
            Ok(remembered) => Ok(remembered),
            Err(fault) => Err(fault),
        },
    }
}

/// What is remembered, by its first byte and those after it.
fn decode_tagged(tag: u8, bytes: &[u8]) -> Result<Option<Progress>, GreetingFault>
    ensures remembered { IfOk result IsProgressOrNone }
    ensures front { IfOk result (λ p. (rest : List ℕ)
        × (tag ∷ bytes.now ≡ remembered_bytes p ++ rest)) }
    ensures each { (p : Option ProgressValue) (rest : List ℕ) → IsProgressOrNone p →
        tag ∷ bytes.now ≡ remembered_bytes p ++ rest → result ≡ Ok p }
    ensures short { IsErrOf result GreetingFault.Short →
        1 + length bytes.now < remembered_length tag }
    ensures begins { (p : Option ProgressValue) (more : List ℕ) → IsProgressOrNone p →
        0 < length more → tag ∷ (bytes.now ++ more) ≡ remembered_bytes p →
        result ≡ Err GreetingFault.Short }
{
    match tag {
        0 => Ok(None),
        1 => match decode_progress(bytes) {
            Ok(progress) => Ok(Some(progress)),
            Err(fault) => Err(fault),
        },
        _ => Err(GreetingFault::Malformed),
    }
}

/// The progress with whose bytes these begin.
fn decode_progress(bytes: &[u8]) -> Result<Progress, GreetingFault>
    ensures progress { IfOk result IsProgress }
    ensures front { IfOk result (λ p. (rest : List ℕ) × (bytes.now ≡ progress_bytes p ++ rest)) }
    ensures each { (p : ProgressValue) (rest : List ℕ) → IsProgress p →
        bytes.now ≡ progress_bytes p ++ rest → result ≡ Ok p }
    ensures short { IsErrOf result GreetingFault.Short → length bytes.now < 54 }
    ensures begins { length bytes.now < 54 → result ≡ Err GreetingFault.Short }
{
    if bytes.len() < PROGRESS {
        return Err(GreetingFault::Short);
    }
    let (progress, _) = bytes.split_at(PROGRESS);
    match progress_of(progress) {
        Some(progress) => Ok(progress),
        None => Err(GreetingFault::Malformed),
    }
}
