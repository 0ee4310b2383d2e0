//! The text of what was heard is read.
ghost use Rattle.std.specs.Prelude.{◌≡◌, ◌≢◌, ◌≤◌, ℕ, List, Option, Some, length, IfNone, IfSome};
ghost use Rattle.wf_peer.specs.GreetingReply.{rejection_byte};
ghost use Rattle.wf_peer.specs.PeerProgressText.{IsPeerProgress, ReadsLines, accusation_then, line_then};
ghost use Rattle.wf_peer.specs.declared.heard.Heard.{Heard as HeardValue};
ghost use Rattle.wf_peer.specs.declared.rejection.PeerRejection.{PeerRejection as RejectionValue};

use crate::fault::PeerProgressFault;
use crate::heard::Heard;
use crate::peer_progress::PeerProgress;
use crate::peer_progress_text::{FIRST_LINE, NOTHING_LINE, OLD_FIRST_LINE};
use crate::progress::Progress;
use crate::rejection::PeerRejection;
use wf_folder::{after, split_named, split_reach, split_word};

/// The number of lines, one a node after the first one.
const LINES: usize = 65;

impl PeerProgress {
    ghost use Rattle.std.specs.Prelude.{◌≡◌, List, Option, Ok, length, IfOk};
    ghost use Rattle.wf_peer.specs.PeerProgressText.{ArePeerProgress, IsProgressTextOf};
    ghost use Rattle.wf_peer.specs.declared.heard.Heard.{Heard as HeardValue};

    /// What was heard, by its text, of this version or of version 1. Err: the bytes aren't the text
    /// of any, and the first line at which they aren't.
    #[tactic(auto, using(crate::proofs::Lines::not_lines, crate::proofs::Lines::not_old_lines, crate::proofs::Lines::is_text, crate::proofs::Lines::is_old_text))]
    pub fn read(bytes: &[u8]) -> Result<PeerProgress, PeerProgressFault>
        ensures known { IfOk result (λ known. (length known ≡ 64) × ArePeerProgress known) }
        ensures text { IfOk result (IsProgressTextOf bytes.now) }
        ensures each { (known : List (Option HeardValue)) → length known ≡ 64 →
            ArePeerProgress known → IsProgressTextOf bytes.now known → result ≡ Ok known }
    {
        let mut nodes = [None; 64];
        if let Some(rest) = after(bytes, FIRST_LINE) {
            return match read_lines(rest, &mut nodes) {
                Ok(()) => Ok(PeerProgress { nodes }),
                Err(fault) => Err(fault),
            };
        }
        let Some(rest) = after(bytes, OLD_FIRST_LINE) else {
            return Err(PeerProgressFault::Line(1));
        };
        match read_lines(rest, &mut nodes) {
            Ok(()) => Ok(PeerProgress { nodes }),
            Err(fault) => Err(fault),
        }
    }
}

/// Reads a line for each node, and nothing is to follow.
#[tactic(auto, using(crate::proofs::Lines::no_line, crate::proofs::Lines::one_line))]
fn read_lines(bytes: &[u8], nodes: &mut [Option<Heard>]) -> Result<(), PeerProgressFault>
    requires { length nodes.old ≤ 64 }
    ensures { ReadsLines bytes.now (length nodes.old) nodes.new result }
{
    let line = LINES + 1 - nodes.len();
    let Some((node, others)) = nodes.split_first_mut() else {
        return if bytes.is_empty() {
            Ok(())
        } else {
            Err(PeerProgressFault::Line(line))
        };
    };
    let Some((known, rest)) = split_line(bytes) else {
        return Err(PeerProgressFault::Line(line));
    };
    *node = known;
    read_lines(rest, others)
}

/// What the line says that bytes begin with, and what follows it.
#[tactic(auto, unfolding(crate::specs::PeerProgressText::line_then))]
fn split_line(bytes: &[u8]) -> Option<(Option<Heard>, &[u8])>
    ensures known { IfSome result (λ x. IsPeerProgress x.0) }
    ensures some { IfSome result (λ x. bytes.now ≡ line_then x.0 x.1.now) }
    ensures none { IfNone result ((node : Option HeardValue) (rest : List ℕ) → IsPeerProgress node →
        bytes.now ≢ line_then node rest) }
{
    match after(bytes, NOTHING_LINE) {
        Some(rest) => Some((None, rest)),
        None => match split_heard(bytes) {
            Some((heard, rest)) => Some((Some(heard), rest)),
            None => None,
        },
    }
}

/// What was heard of the node whose line bytes begin with, and what follows it.
fn split_heard(bytes: &[u8]) -> Option<(Heard, &[u8])>
    ensures heard { IfSome result (λ x. IsPeerProgress (Some x.0)) }
    ensures some { IfSome result (λ x. bytes.now ≡ line_then (Some x.0) x.1.now) }
    ensures none { IfNone result ((h : HeardValue) (rest : List ℕ) → IsPeerProgress (Some h) →
        bytes.now ≢ line_then (Some h) rest) }
{
    let (mark, rest) = split_named(bytes, b"mark ")?;
    let (starts, rest) = split_word(rest, b" starts ")?;
    let (life, rest) = split_named(rest, b" life ")?;
    let Some((reach, rest)) = split_reach(rest) else {
        return None;
    };
    let Some((accusation, rest)) = split_accusation(rest) else {
        return None;
    };
    let progress = Progress::new(mark, starts, life, &reach);
    let heard = Heard {
        progress,
        accusation,
    };
    Some((heard, rest))
}

/// The accusation that bytes begin with, if it is one, the end of the line, and what follows it.
#[tactic(auto, unfolding(crate::specs::PeerProgressText::accusation_then))]
fn split_accusation(bytes: &[u8]) -> Option<(Option<PeerRejection>, &[u8])>
    ensures some { IfSome result (λ x. bytes.now ≡ accusation_then x.0 x.1.now) }
    ensures none { IfNone result ((accusation : Option RejectionValue) (rest : List ℕ) →
        bytes.now ≢ accusation_then accusation rest) }
{
    match after(bytes, b"\n") {
        Some(rest) => Some((None, rest)),
        None => match split_accused(bytes) {
            Some((why, rest)) => Some((Some(why), rest)),
            None => None,
        },
    }
}

/// The accusation that bytes begin with, the end of the line, and what follows it.
fn split_accused(bytes: &[u8]) -> Option<(PeerRejection, &[u8])>
    ensures some { IfSome result (λ x. bytes.now ≡ accusation_then (Some x.0) x.1.now) }
    ensures none { IfNone result ((why : RejectionValue) (rest : List ℕ) →
        bytes.now ≢ accusation_then (Some why) rest) }
{
    let (number, rest) = split_word(bytes, b" accused ")?;
    let rest = after(rest, b"\n")?;
    match rejection_of(number) {
        Some(why) => Some((why, rest)),
        None => None,
    }
}

/// The rejection with this number.
fn rejection_of(number: u32) -> Option<PeerRejection>
    ensures some { IfSome result (λ why. number ≡ rejection_byte why) }
    ensures none { IfNone result ((why : RejectionValue) → number ≢ rejection_byte why) }
{
    match u8::try_from(number) {
        Ok(byte) => PeerRejection::of_byte(byte),
        Err(_) => None,
    }
}
