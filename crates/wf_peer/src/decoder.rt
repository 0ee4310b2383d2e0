//! Greetings out of bytes.
ghost use Rattle.std.specs.Prelude.{◌≡◌, ◌≢◌, ◌+◌, ◌<◌, ◌≤◌, ◌^◌, ◌++◌, ◌↔◌, ℕ, List, Option, Some, Ok, Err, get_or, length, IfErr, IfOk, IfSome, IsErrOf};
ghost use Rattle.std.specs.Int.{w16, w32, to_be_bytes};
ghost use Rattle.wf_ballot.specs.Ballot.{Ballot as BallotValue};
ghost use Rattle.wf_folder.specs.Reach.{IsPromise, IsVote, IsVoteOrNone};
ghost use Rattle.wf_folder.specs.declared.reach.HighestVote.{HighestVote as VoteValue};
ghost use Rattle.wf_peer.specs.Greeting.{HasFixedParts, IsGreeting, IsProgress, body_bytes, fixed_bytes, greeting_bytes, greeting_length, greeting_mark, plain, progress_bytes, promise_bytes, peer_version, state_byte, told_length, vote_bytes};
ghost use Rattle.wf_peer.specs.declared.greeting.Greeting.{Greeting as GreetingValue};
ghost use Rattle.wf_peer.specs.declared.progress.Progress.{Progress as ProgressValue};
ghost use Rattle.wf_peer.specs.declared.state.NodeState.{NodeState as StateValue};

use crate::encoder::{GREETING_MARK, told_length};
use crate::fault::GreetingFault;
use crate::greeting::{GREETING_BYTES, Greeting};
use crate::progress::Progress;
use crate::replaced_decoder::decode_told;
use crate::state::NodeState;
use wf_ballot::{Ballot, NodeId, Seq, Slot};
use wf_folder::{FarmName, HighestVote, after};
use wf_rejoin::Replacements;

/// The bytes of the version, those of `PEER_VERSION`.
const VERSION_BYTES: &[u8] = &[0, 2];

/// The least number of bytes of a greeting after its version: with that of replaced nodes.
const BODY: usize = 122;

/// The number of those without that.
const FIXED: usize = 121;

/// The number of bytes of a node's progress.
pub(crate) const PROGRESS: usize = 54;

/// The greeting that bytes begin with. `Short`: they may go on as one, and more are needed. Any
/// other error stays, whatever follows.
#[tactic(auto, unfolding(crate::specs::Greeting::greeting_bytes))]
pub fn decode(bytes: &[u8]) -> Result<Greeting, GreetingFault>
    ensures greeting { IfOk result IsGreeting }
    ensures front { IfOk result (λ g. (rest : List ℕ) × (bytes.now ≡ greeting_bytes g ++ rest)) }
    ensures each { (g : GreetingValue) (rest : List ℕ) → IsGreeting g →
        bytes.now ≡ greeting_bytes g ++ rest → result ≡ Ok g }
    ensures short { IsErrOf result GreetingFault.Short →
        length bytes.now < greeting_length bytes.now }
    ensures mark { IsErrOf result GreetingFault.Short → 8 ≤ length bytes.now →
        (rest : List ℕ) × (bytes.now ≡ greeting_mark ++ rest) }
    ensures few { length bytes.now < 8 → result ≡ Err GreetingFault.Short }
    ensures begins { (g : GreetingValue) (more : List ℕ) → IsGreeting g → 0 < length more →
        bytes.now ++ more ≡ greeting_bytes g → result ≡ Err GreetingFault.Short }
{
    match after(bytes, GREETING_MARK) {
        Some(rest) => decode_body(after_version(rest)?),
        None => Err(fault_of_mark(bytes)),
    }
}

/// How many bytes the greeting has that begins so; while fewer than 132 are there, the least that
/// it has. A reader that reads no more than these before it decodes reads nothing of what follows a
/// greeting.
pub fn greeting_length(bytes: &[u8]) -> usize
    ensures value { result ≡ greeting_length bytes.now }
    ensures within { (g : GreetingValue) (more rest : List ℕ) → IsGreeting g →
        bytes.now ++ more ≡ greeting_bytes g ++ rest → result ≤ length (greeting_bytes g) }
    ensures whole { (g : GreetingValue) (more rest : List ℕ) → IsGreeting g →
        bytes.now ++ more ≡ greeting_bytes g ++ rest → 132 ≤ length bytes.now →
        result ≡ length (greeting_bytes g) }
{
    match bytes.get(GREETING_BYTES - 1) {
        Some(count) => GREETING_BYTES + told_length(usize::from(*count)),
        None => GREETING_BYTES,
    }
}

/// The error of bytes that don't begin as a greeting does.
pub(crate) fn fault_of_mark(bytes: &[u8]) -> GreetingFault
    ensures { (result ≡ GreetingFault.Short) ↔ (length bytes.now < 8) }
{
    if bytes.len() < GREETING_MARK.len() {
        GreetingFault::Short
    } else {
        GreetingFault::NotANode
    }
}

/// What follows this version.
pub(crate) fn after_version(bytes: &[u8]) -> Result<&[u8], GreetingFault>
    ensures ok { IfOk result (λ rest. bytes.now ≡ to_be_bytes w16 peer_version ++ rest.now) }
    ensures err { IfErr result (λ _. (rest : List ℕ) →
        bytes.now ≢ to_be_bytes w16 peer_version ++ rest) }
    ensures short { IsErrOf result GreetingFault.Short → length bytes.now < 2 }
    ensures begins { length bytes.now < 2 → IsErrOf result GreetingFault.Short }
{
    match after(bytes, VERSION_BYTES) {
        Some(rest) => Ok(rest),
        None => Err(fault_of_version(bytes)),
    }
}

/// The error of bytes that don't begin with this version.
fn fault_of_version(bytes: &[u8]) -> GreetingFault
    ensures { (result ≡ GreetingFault.Short) ↔ (length bytes.now < 2) }
{
    match bytes {
        [high, low, ..] => GreetingFault::OtherVersion(u16::from_be_bytes([*high, *low])),
        _ => GreetingFault::Short,
    }
}

/// The greeting with whose bytes after its version bytes begin.
fn decode_body(bytes: &[u8]) -> Result<Greeting, GreetingFault>
    ensures greeting { IfOk result IsGreeting }
    ensures front { IfOk result (λ g. (rest : List ℕ) × (bytes.now ≡ body_bytes g ++ rest)) }
    ensures each { (g : GreetingValue) (rest : List ℕ) → IsGreeting g →
        bytes.now ≡ body_bytes g ++ rest → result ≡ Ok g }
    ensures short { IsErrOf result GreetingFault.Short →
        length bytes.now < 122 + told_length (get_or bytes.now 121 0) }
    ensures begins { (g : GreetingValue) (more : List ℕ) → IsGreeting g → 0 < length more →
        bytes.now ++ more ≡ body_bytes g → result ≡ Err GreetingFault.Short }
{
    if bytes.len() < BODY {
        return Err(GreetingFault::Short);
    }
    let (fixed, told) = bytes.split_at(FIXED);
    match fixed_of(fixed) {
        Some(greeting) => match decode_told(told) {
            Ok(told) => Ok(Greeting {
                replacements: told.0,
                voted: told.1,
                ..greeting
            }),
            Err(fault) => Err(fault),
        },
        None => Err(GreetingFault::Malformed),
    }
}

/// The greeting with these bytes after its version, which tells of no replacement.
fn fixed_of(bytes: &[u8]) -> Option<Greeting>
    requires { length bytes.now ≡ 121 }
    ensures parts { IfSome result HasFixedParts }
    ensures some { IfSome result (λ g. bytes.now ≡ fixed_bytes g) }
    ensures each { (g : GreetingValue) → HasFixedParts g → bytes.now ≡ fixed_bytes g →
        result ≡ Some (plain g) }
{
    let (farm, rest) = bytes.split_at(32);
    let (numbers, rest) = rest.split_at(2);
    let (progress, rest) = rest.split_at(PROGRESS);
    let (digest, state) = rest.split_at(32);
    let farm = FarmName::from_bytes(farm)?;
    let node = NodeId::new(numbers[1])?;
    let progress = progress_of(progress)?;
    let state = NodeState::of_byte(state[0])?;
    Some(Greeting {
        farm,
        nodes: numbers[0],
        node,
        progress,
        digest: array(digest),
        state,
        replacements: Replacements::new(),
        voted: Seq::new(0).unwrap(),
    })
}

/// The progress with these bytes.
pub(crate) fn progress_of(bytes: &[u8]) -> Option<Progress>
    requires { length bytes.now ≡ 54 }
    ensures progress { IfSome result IsProgress }
    ensures some { IfSome result (λ p. bytes.now ≡ progress_bytes p) }
    ensures each { (p : ProgressValue) → IsProgress p → bytes.now ≡ progress_bytes p →
        result ≡ Some p }
{
    let (mark, rest) = bytes.split_at(16);
    let (starts, rest) = rest.split_at(4);
    let (life, rest) = rest.split_at(16);
    let (round, rest) = rest.split_at(4);
    let (promise, rest) = rest.split_at(5);
    let (vote, published) = rest.split_at(7);
    let promise = promise_of(promise)?;
    let Some(vote) = vote_of(vote) else {
        return None;
    };
    let published = Seq::from_bytes(published)?;
    Some(Progress {
        mark: array(mark),
        starts: number_of(starts),
        life: array(life),
        round: number_of(round),
        promise,
        vote,
        published,
    })
}

/// The promise with these bytes.
fn promise_of(bytes: &[u8]) -> Option<Option<Ballot>>
    ensures promise { IfSome result IsPromise }
    ensures some { IfSome result (λ p. bytes.now ≡ promise_bytes p) }
    ensures each { (p : Option BallotValue) → IsPromise p → bytes.now ≡ promise_bytes p →
        result ≡ Some p }
{
    match bytes {
        [0, 0, 0, 0, 0] => Some(None),
        _ => match Ballot::from_bytes(bytes) {
            Some(ballot) => Some(Some(ballot)),
            None => None,
        },
    }
}

/// The vote with these bytes.
fn vote_of(bytes: &[u8]) -> Option<Option<HighestVote>>
    requires { length bytes.now ≡ 7 }
    ensures vote { IfSome result IsVoteOrNone }
    ensures some { IfSome result (λ v. bytes.now ≡ vote_bytes v) }
    ensures each { (v : Option VoteValue) → IsVoteOrNone v → bytes.now ≡ vote_bytes v →
        result ≡ Some v }
{
    match bytes {
        [0, 0, 0, 0, 0, 0, 0] => Some(None),
        _ => match some_vote_of(bytes) {
            Some(vote) => Some(Some(vote)),
            None => None,
        },
    }
}

/// The vote with these bytes, which aren't all zeros.
fn some_vote_of(bytes: &[u8]) -> Option<HighestVote>
    requires { length bytes.now ≡ 7 }
    ensures vote { IfSome result IsVote }
    ensures some { IfSome result (λ v. bytes.now ≡ vote_bytes (Some v)) }
    ensures each { (v : VoteValue) → IsVote v → bytes.now ≡ vote_bytes (Some v) → result ≡ Some v }
{
    let (ballot, sequence) = bytes.split_at(5);
    let ballot = Ballot::from_bytes(ballot)?;
    let sequence = Slot::from_bytes(sequence)?;
    Some(HighestVote { ballot, sequence })
}

/// The number with these bytes.
pub(crate) fn number_of(bytes: &[u8]) -> u32
    requires { length bytes.now ≡ 4 }
    ensures bytes { bytes.now ≡ to_be_bytes w32 result }
    ensures each { (n : ℕ) → n < 2 ^ 32 → bytes.now ≡ to_be_bytes w32 n → result ≡ n }
{
    u32::from_be_bytes(array(bytes))
}

/// Bytes as an array.
pub(crate) fn array<const N: usize>(bytes: &[u8]) -> [u8; N]
    requires { length bytes.now ≡ N }
    ensures { result ≡ bytes.now }
{
    let mut array = [0; N];
    array.copy_from_slice(bytes);
    array
}
