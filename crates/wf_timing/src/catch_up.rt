//! Which peer a node asks for the definitions that it lacks.
ghost use Rattle.std.specs.Prelude.{◌≡◌, ◌≤◌, ◌+◌, IfNone, IfSome};
ghost use Rattle.wf_timing.specs.CatchUp.{IsAskedOf, IsFirstFlag, IsFirstFrom, IsNotAsked, NoneFrom, NoneIsSet, is_brought_on, turn_of};

use crate::ticker::SECOND;

/// The number of definitions in a whole answer to a question, after which a node asks again at
/// once.
pub const WHOLE_ANSWER: u16 = 8;

/// A question that was asked.
#[derive(Clone, Copy, Debug, PartialEq, Eq)]
pub struct PendingQuestion {
    /// The peer that was asked.
    pub peer: usize,
    /// The sequence that the node had published then.
    pub published: u16,
}

/// Whose turn it is to be asked, and when: one peer at a time, and the next one where a second
/// passed without a whole answer.
#[derive(Clone, Copy, Debug, PartialEq, Eq)]
pub struct CatchUp {
    /// The first peer whose turn it may be.
    pub next: usize,
    /// The moment from which a peer is asked.
    pub due: u64,
    /// The last question.
    pub question: Option<PendingQuestion>,
}

impl CatchUp {
    /// Nobody was asked; a peer is to be asked from now on.
    pub fn new(now: u64) -> CatchUp
        ensures next { result.next ≡ 0 }
        ensures due { result.due ≡ now }
        ensures question { result.question ≡ None }
    {
        CatchUp {
            next: 0,
            due: now,
            question: None,
        }
    }

    /// A connection to this peer opened: it is asked at once.
    pub fn connect(&mut self, peer: usize, now: u64)
        ensures next { self.new.next ≡ peer }
        ensures due { self.new.due ≡ now }
        ensures question { self.new.question ≡ None }
    {
        self.next = peer;
        self.due = now;
        self.question = None;
    }

    /// The peer to ask now, by which peers are connected (this node never is) and the last
    /// published sequence; None if nobody is to be asked yet, or nobody is connected. The one who
    /// is asked is asked again at once after a whole answer; otherwise, a second later, it is the
    /// next one's turn.
    pub fn ask(&mut self, now: u64, published: u16, connected: &[bool]) -> Option<usize>
        requires { published ≤ 4096 }
        ensures asked { IfSome result (λ peer.
            IsAskedOf self.old now published connected.now peer self.new) }
        ensures none { IfNone result (IsNotAsked self.old now published connected.now self.new) }
    {
        let again = is_brought_on(self.question, published);
        if !again && now < self.due {
            return None;
        }
        let turn = turn_of(*self, published);
        let peer = first_connected(connected, turn)?;
        self.next = peer + 1;
        self.due = now.saturating_add(SECOND);
        self.question = Some(PendingQuestion { peer, published });
        Some(peer)
    }
}

/// Whether a whole answer to the question was published.
fn is_brought_on(question: Option<PendingQuestion>, published: u16) -> bool
    requires { published ≤ 4096 }
    ensures { result ≡ is_brought_on question published }
{
    match question {
        Some(question) => u32::from(question.published) + u32::from(WHOLE_ANSWER)
            <= u32::from(published),
        None => false,
    }
}

/// The first peer whose turn it may be.
fn turn_of(catch_up: CatchUp, published: u16) -> usize
    requires { published ≤ 4096 }
    ensures { result ≡ turn_of catch_up published }
{
    match catch_up.question {
        Some(question) if is_brought_on(catch_up.question, published) => question.peer,
        _ => catch_up.next,
    }
}

/// The first peer that is connected, from this one on and then from the first.
fn first_connected(connected: &[bool], from: usize) -> Option<usize>
    ensures some { IfSome result (λ peer. IsFirstFrom connected.now from peer) }
    ensures none { IfNone result (NoneIsSet connected.now) }
{
    match first_flag(connected, from) {
        Some(peer) => Some(peer),
        None => first_flag(connected, 0),
    }
}

/// The first flag from an index on that is set.
fn first_flag(flags: &[bool], from: usize) -> Option<usize>
    ensures some { IfSome result (λ index. IsFirstFlag flags.now from index) }
    ensures none { IfNone result (NoneFrom flags.now from) }
{
    for (index, flag) in flags.iter().enumerate() {
        if from <= index && *flag {
            return Some(index);
        }
    }
    None
}
