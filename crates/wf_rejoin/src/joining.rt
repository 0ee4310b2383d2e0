//! A folder that joins in the place of a lost one.
ghost use Rattle.std.specs.Prelude.{◌≡◌, ◌<◌, ◌≤◌, ◌↔◌, IfSome, IsTrue, SomeIff, replicate, true};
ghost use Rattle.std.specs.List.{list_all};
ghost use Rattle.wf_folder.specs.FarmFile.{IsNumberOfNodes};
ghost use Rattle.wf_rejoin.specs.Joining.{AgreementCounts, AllAnswered, AnswerCounts, HasHalf, HasWindowAfter, IsJoining, IsOpenTo, MayServe, MayVote, agreed_count, agreed_nodes, begun, has_agreed, highest_answer, highest_of, owes_nothing, stage_of, with_stage};
ghost use Rattle.wf_rejoin.specs.declared.joining.Stage.TheVariants.{Agreed, Answered, Unasked};

use crate::answer::Answer;
use crate::replacement::Replacement;
use wf_ballot::{NodeId, SEQUENCES, Seq};

/// How many sequences after m a node may have promised: those that one promise is for.
pub(crate) const WINDOW: u16 = 4;

/// What a folder that joins has of another node.
#[derive(Clone, Copy, Debug, PartialEq, Eq)]
pub enum Stage {
    /// Nothing.
    Unasked,
    /// It has agreed to this replacement.
    Agreed,
    /// It has agreed, and answered how far it was when half of all nodes had agreed.
    Answered(Answer),
}

/// What the file `joins` says of a folder that joins: it may not vote yet.
#[derive(Clone, Copy, Debug, PartialEq, Eq)]
pub struct Joining {
    /// The number of the node, from 0 on.
    pub node: NodeId,
    /// The number of the farm's nodes, 1 to 64.
    pub nodes: u8,
    /// The folder's mark, and the count under which the others are asked; 0 until an operator
    /// begins.
    pub replacement: Replacement,
    /// What it has of each node that a farm may have, in the order of the nodes.
    pub stages: [Stage; 64],
}

impl Joining {
    /// A new folder, whose replacement wasn't begun.
    pub fn new(node: NodeId, nodes: u8, mark: [u8; 16]) -> Joining
        requires nodes { IsNumberOfNodes nodes }
        requires node { node < nodes }
        ensures joins { IsJoining result }
        ensures node { result.node ≡ node }
        ensures nodes { result.nodes ≡ nodes }
        ensures count { result.replacement.count ≡ 0 }
        ensures mark { result.replacement.mark ≡ mark }
        ensures stages { result.stages ≡ replicate 64 Unasked }
    {
        let _ = node.number();
        Joining {
            node,
            nodes,
            replacement: Replacement { count: 0, mark },
            stages: [Stage::Unasked; 64],
        }
    }

    /// Once an operator has begun a replacement by this folder with a higher count than before:
    /// whoever agreed before has to agree again. None: the count isn't higher.
    pub fn begin(&self, count: u32) -> Option<Joining>
        requires { IsJoining self.now }
        ensures value { SomeIff result (self.now.replacement.count < count) (begun self.now count) }
        ensures joins { IfSome result IsJoining }
    {
        if count <= self.replacement.count {
            return None;
        }
        let mark = self.replacement.mark;
        Some(Joining {
            replacement: Replacement { count, mark },
            stages: [Stage::Unasked; 64],
            ..*self
        })
    }

    /// Once a node has said that it agreed to this replacement of the node. None: that doesn't
    /// count, and changes nothing.
    pub fn agree(&self, node: NodeId, replacement: &Replacement) -> Option<Joining>
        requires { IsJoining self.now }
        ensures value { SomeIff result (AgreementCounts self.now node replacement.now)
            (with_stage self.now node Agreed) }
        ensures joins { IfSome result IsJoining }
    {
        if self.is_open_to(node) && self.replacement == *replacement && !self.has_half() {
            Some(self.with_stage(node, Stage::Agreed))
        } else {
            None
        }
    }

    /// Once a node has answered the folder of this replacement how far it is. None: that doesn't
    /// count, and changes nothing.
    pub fn answer(&self, node: NodeId, replacement: &Replacement, answer: Answer) -> Option<Joining>
        requires { IsJoining self.now }
        ensures value { SomeIff result (AnswerCounts self.now node replacement.now)
            (with_stage self.now node (Answered answer)) }
        ensures joins { IfSome result IsJoining }
    {
        if self.is_owed_by(node) && self.replacement == *replacement && self.has_half() {
            Some(self.with_stage(node, Stage::Answered(answer)))
        } else {
            None
        }
    }

    /// What it has of a node.
    pub fn stage(&self, node: NodeId) -> Stage
        requires { IsJoining self.now }
        ensures { result ≡ stage_of self.now node }
    {
        self.stages[node.number() as usize]
    }

    /// Whether at least half of all nodes have agreed, so that these are to be asked how far they
    /// are.
    pub fn has_half(&self) -> bool
        requires { IsJoining self.now }
        ensures { IsTrue result ↔ HasHalf self.now }
    {
        usize::from(self.nodes) <= 2 * self.agreed()
    }

    /// How many nodes have agreed.
    #[tactic(auto, using(crate::proofs::Counted::none_counted, crate::proofs::Counted::one_counted, crate::proofs::Counted::still_counted), unfolding(crate::specs::Joining::agreed_count))]
    pub fn agreed(&self) -> usize
        requires { IsJoining self.now }
        ensures value { result ≡ agreed_count self.now }
        ensures within { result ≤ self.now.nodes }
    {
        let mut count = 0;
        for index in 0..usize::from(self.nodes) {
            if self.is_agreed(index) {
                count += 1;
            }
        }
        count
    }

    /// The highest sequence at which any of the nodes that were asked had published or voted, m.
    /// None: half of all haven't agreed, or one of these hasn't answered.
    pub fn highest(&self) -> Option<u16>
        requires { IsJoining self.now }
        ensures { SomeIff result (HasHalf self.now × AllAnswered self.now)
            (highest_answer self.now) }
    {
        if self.has_half() && owe_nothing(&self.stages) {
            Some(highest_answer(self))
        } else {
            None
        }
    }

    /// Whether the folder may vote, with this last published sequence: m is known, and it has all
    /// definitions up to four after m, or all that there can be. Its file `joins` has to say so.
    pub fn may_vote(&self, published: Seq) -> bool
        requires { IsJoining self.now }
        ensures { IsTrue result ↔ MayVote self.now published }
    {
        match self.highest() {
            Some(highest) => has_window_after(highest, published),
            None => false,
        }
    }

    /// Whether the folder may answer clients, with this last published sequence: m is known, and it
    /// has m maps, no fewer than its predecessor served.
    pub fn may_serve(&self, published: Seq) -> bool
        requires { IsJoining self.now }
        ensures { IsTrue result ↔ MayServe self.now published }
    {
        match self.highest() {
            Some(highest) => highest <= published.number(),
            None => false,
        }
    }

    /// Whether the node of this number has agreed, and is another one than the folder's.
    fn is_agreed(&self, index: usize) -> bool
        requires joins { IsJoining self.now }
        requires within { index < 64 }
        ensures { result ≡ agreed_nodes self.now index }
    {
        index != usize::from(self.node.number()) && has_agreed(&self.stages[index])
    }

    /// Whether a node is one whose first agreement may count.
    fn is_open_to(&self, node: NodeId) -> bool
        requires { IsJoining self.now }
        ensures { IsTrue result ↔ IsOpenTo self.now node }
    {
        0 < self.replacement.count
            && node != self.node
            && node.number() < self.nodes
            && self.stage(node) == Stage::Unasked
    }

    /// Whether a node has agreed and not answered.
    fn is_owed_by(&self, node: NodeId) -> bool
        requires { IsJoining self.now }
        ensures { IsTrue result ↔ (stage_of self.now node ≡ Agreed) }
    {
        self.stage(node) == Stage::Agreed
    }

    /// Once it has this of a node.
    fn with_stage(&self, node: NodeId, stage: Stage) -> Joining
        requires { IsJoining self.now }
        ensures value { result ≡ with_stage self.now node stage }
        ensures joins { IsJoining result }
    {
        let mut stages = self.stages;
        stages[node.number() as usize] = stage;
        Joining { stages, ..*self }
    }
}

/// Whether a node has agreed.
fn has_agreed(stage: &Stage) -> bool
    ensures { result ≡ has_agreed stage.now }
{
    match stage {
        Stage::Unasked => false,
        Stage::Agreed | Stage::Answered(_) => true,
    }
}

/// Whether each node that has agreed has answered.
fn owe_nothing(stages: &[Stage]) -> bool
    ensures { result ≡ list_all owes_nothing stages.now }
{
    stages.iter().all(|stage| owes_nothing(stage))
}

/// Whether a node hasn't agreed, or has answered.
fn owes_nothing(stage: &Stage) -> bool
    ensures { result ≡ owes_nothing stage.now }
{
    match stage {
        Stage::Unasked | Stage::Answered(_) => true,
        Stage::Agreed => false,
    }
}

/// The highest sequence of all answers.
#[tactic(auto, using(crate::proofs::Counted::none_answered, crate::proofs::Counted::one_answered), unfolding(crate::specs::Joining::highest_answer))]
fn highest_answer(joining: &Joining) -> u16
    requires { IsJoining joining.now }
    ensures { result ≡ highest_answer joining.now }
{
    let mut highest = 0;
    for index in 0..64 {
        highest = highest.max(answer_of(joining, index));
    }
    highest
}

/// The highest sequence of the answer of the node of this number; 0 if it hasn't answered.
fn answer_of(joining: &Joining, index: usize) -> u16
    requires joins { IsJoining joining.now }
    requires within { index < 64 }
    ensures { result ≡ highest_of (stage_of joining.now index) }
{
    match &joining.stages[index] {
        Stage::Answered(answer) => answer.highest(),
        Stage::Unasked | Stage::Agreed => 0,
    }
}

/// Whether a node that has published so far has all definitions up to a window after m, or all that
/// there can be.
fn has_window_after(highest: u16, published: Seq) -> bool
    ensures { IsTrue result ↔ HasWindowAfter highest published }
{
    u32::from(highest) + u32::from(WINDOW) <= u32::from(published.number())
        || published.number() == SEQUENCES
}
