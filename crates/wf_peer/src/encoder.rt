//! Greetings as bytes.
ghost use Rattle.std.specs.Prelude.{◌≡◌, ◌+◌, ◌*◌, ◌-◌, ◌<◌, ◌≤◌, ◌++◌, [], Some, length, vec_len, vec_capacity, OnErr, OnOk};
ghost use Rattle.std.specs.Int.{w16, to_be_bytes};
ghost use Rattle.wf_ballot.specs.Ballot.{Ballot};
ghost use Rattle.wf_peer.specs.Greeting.{entries_from, entry_then, fixed_bytes, greeting_bytes, greeting_mark, peer_version, progress_bytes, promise_bytes, told_bytes, told_length, vote_bytes};
ghost use Rattle.wf_peer.specs.ToldEntries.{entry_length};
ghost use Rattle.wf_rejoin.specs.Replacements.{known_count};

use crate::greeting::{GREETING_BYTES, Greeting, PEER_VERSION};
use crate::progress::Progress;
use std::alloc::AllocError;
use wf_ballot::Ballot;
use wf_folder::HighestVote;
use wf_frame::put;
use wf_rejoin::Replacement;

/// The number of bytes of a replacement in a greeting.
pub(crate) const ENTRY: usize = 21;

/// What a greeting begins with.
pub(crate) const GREETING_MARK: &[u8] = b"wf-node\n";

/// Appends the greeting's encoding. The only error is allocation failure; the bytes are then
/// unchanged.
#[tactic(auto, using(crate::proofs::Bodies::greeting_put))]
pub fn encode(greeting: &Greeting, out: &mut Vec<u8>) -> Result<(), AllocError>
    ensures ok { OnOk result (out.new.items ≡ out.old.items ++ greeting_bytes greeting.now) }
    ensures err { OnErr result (out.new.items ≡ out.old.items) }
{
    let count = greeting.replacements.count();
    out.reserve(GREETING_BYTES + told_length(count))?;
    put_front(out, greeting);
    put_told(out, greeting, count);
    Ok(())
}

/// The number of bytes after the number of replaced nodes, which is this one.
pub(crate) fn told_length(count: usize) -> usize
    requires { count < 256 }
    ensures { result ≡ told_length count }
{
    if count == 0 { 0 } else { ENTRY * count + 2 }
}

/// Appends a greeting up to its state, for which there is room.
#[tactic(auto, unfolding(crate::specs::Greeting::fixed_bytes))]
fn put_front(out: &mut Vec<u8>, greeting: &Greeting)
    requires { vec_len out.old + 131 ≤ vec_capacity out.old }
    ensures items { out.new.items ≡ out.old.items
        ++ (greeting_mark ++ (to_be_bytes w16 peer_version ++ fixed_bytes greeting.now)) }
    ensures len { vec_len out.new ≡ vec_len out.old + 131 }
    ensures capacity { vec_capacity out.old ≤ vec_capacity out.new }
{
    put(out, GREETING_MARK);
    put(out, &PEER_VERSION.to_be_bytes());
    put(out, &greeting.farm.bytes());
    put(out, &[greeting.nodes, greeting.node.number()]);
    put_progress(out, &greeting.progress);
    put(out, &greeting.digest);
    put(out, &[greeting.state.byte()]);
}

/// Appends what is told of replacements, for which there is room: `count` are known.
#[tactic(auto, using(crate::proofs::ToldReplacements::put_all, crate::proofs::ToldReplacements::put_nothing, crate::proofs::ToldReplacements::length_some))]
fn put_told(out: &mut Vec<u8>, greeting: &Greeting, count: usize)
    requires count { count ≡ known_count greeting.now.replacements }
    requires most { count ≤ 64 }
    requires room { vec_len out.old + 1 + told_length count ≤ vec_capacity out.old }
    ensures { out.new.items ≡
        out.old.items ++ told_bytes greeting.now.replacements greeting.now.voted }
{
    put(out, &[count as u8]);
    if 0 < count {
        put_entries(out, greeting.replacements.nodes());
        put(out, &greeting.voted.bytes());
    }
}

/// Appends the replacements of the last nodes, for which there is room.
#[tactic(auto, using(crate::proofs::ToldReplacements::entries_counted, crate::proofs::ToldReplacements::put_one_more, crate::proofs::ToldReplacements::put_no_more, crate::proofs::ToldReplacements::none_counted))]
fn put_entries(out: &mut Vec<u8>, nodes: &[Option<Replacement>])
    requires nodes { length nodes.now ≤ 64 }
    requires room { vec_len out.old + 21 * known_count nodes.now ≤ vec_capacity out.old }
    ensures items { out.new.items ≡
        out.old.items ++ entries_from (64 - length nodes.now) nodes.now }
    ensures len { vec_len out.new ≡ vec_len out.old + 21 * known_count nodes.now }
    ensures capacity { vec_capacity out.old ≤ vec_capacity out.new }
{
    let node = (64 - nodes.len()) as u8;
    match nodes.split_first() {
        None => {}
        Some((latest, others)) => {
            put_latest(out, node, latest);
            put_entries(out, others);
        }
    }
}

/// Appends the replacement of a node, if there is one, for which there is room.
#[tactic(auto, using(crate::proofs::ToldReplacements::put_none))]
fn put_latest(out: &mut Vec<u8>, node: u8, latest: &Option<Replacement>)
    requires { vec_len out.old + entry_length latest.now ≤ vec_capacity out.old }
    ensures items { out.new.items ≡ out.old.items ++ entry_then node latest.now [] }
    ensures len { vec_len out.new ≡ vec_len out.old + entry_length latest.now }
    ensures capacity { vec_capacity out.old ≤ vec_capacity out.new }
{
    match latest {
        None => {}
        Some(replacement) => put_entry(out, node, replacement),
    }
}

/// Appends the replacement of a node, for which there is room.
#[tactic(auto, unfolding(crate::specs::Greeting::entry_then))]
fn put_entry(out: &mut Vec<u8>, node: u8, replacement: &Replacement)
    requires { vec_len out.old + 21 ≤ vec_capacity out.old }
    ensures items { out.new.items ≡ out.old.items ++ entry_then node (Some replacement.now) [] }
    ensures len { vec_len out.new ≡ vec_len out.old + 21 }
    ensures capacity { vec_capacity out.old ≤ vec_capacity out.new }
{
    put(out, &[node]);
    put(out, &replacement.count.to_be_bytes());
    put(out, &replacement.mark);
}

/// Appends a node's progress, for which there is room.
#[tactic(auto, unfolding(crate::specs::Greeting::progress_bytes))]
pub(crate) fn put_progress(out: &mut Vec<u8>, progress: &Progress)
    requires { vec_len out.old + 54 ≤ vec_capacity out.old }
    ensures items { out.new.items ≡ out.old.items ++ progress_bytes progress.now }
    ensures len { vec_len out.new ≡ vec_len out.old + 54 }
    ensures capacity { vec_capacity out.old ≤ vec_capacity out.new }
{
    put(out, &progress.mark);
    put(out, &progress.starts.to_be_bytes());
    put(out, &progress.life);
    put(out, &progress.round.to_be_bytes());
    put(out, &promise_bytes(progress.promise));
    put(out, &vote_bytes(&progress.vote));
    put(out, &progress.published.bytes());
}

/// The bytes of a promise: those of its ballot, or zeros.
fn promise_bytes(promise: Option<Ballot>) -> [u8; 5]
    ensures { result ≡ promise_bytes promise }
{
    match promise {
        Some(ballot) => ballot.bytes(),
        None => [0; 5],
    }
}

/// The bytes of a vote: those of its ballot and sequence, or zeros.
#[tactic(auto, unfolding(wf_ballot::specs::Ballot::ballot_bytes, wf_ballot::specs::Ballot::round_bytes, wf_ballot::specs::Sequence::seq_bytes))]
fn vote_bytes(vote: &Option<HighestVote>) -> [u8; 7]
    ensures { result ≡ vote_bytes vote.now }
{
    match vote {
        Some(vote) => {
            let [a, b, c, d, node] = vote.ballot.bytes();
            let [high, low] = vote.sequence.bytes();
            [a, b, c, d, node, high, low]
        }
        None => [0; 7],
    }
}
