use thiserror::Error;

/// Why a peer isn't let in. Its line is for both: the node that rejects a peer logs it, and so does
/// the peer that is told.
#[derive(Clone, Copy, Debug, PartialEq, Eq, Error)]
pub enum PeerRejection {
    /// Its farm has another name.
    #[error("a node of another farm")]
    OtherFarm,
    /// Its farm has another number of nodes.
    #[error("a farm of another number of nodes")]
    OtherNodes,
    /// It isn't the node that is listed there, or no peer.
    #[error("not the node that is listed at this address")]
    OtherNode,
    /// Its folder has another mark than was heard.
    #[error("another folder than before: its disk was lost, or it was made anew")]
    OtherMark,
    /// It is an older start of its folder than was heard.
    #[error("an older start of its folder: a copy of the folder was started, or an old one put back")]
    OlderStart,
    /// As many starts of its folder were heard, but it is another one.
    #[error("another start of as many of its folder: two programs run on copies of one folder, or an old copy was put back and started as often")]
    OtherLife,
    /// It tried a higher round before.
    #[error("it forgot a round: an old copy of its folder was put back")]
    LowerRound,
    /// It made a higher promise before.
    #[error("it forgot a promise: an old copy of its folder was put back")]
    LowerPromise,
    /// It had published a later sequence before.
    #[error("it forgot a publication: an old copy of its folder was put back")]
    LowerSequence,
    /// It had a vote before that it hasn't now, at a sequence that it hasn't published.
    #[error("it forgot a vote: an old copy of its folder was put back")]
    LowerVote,
    /// Its history differs.
    #[error("histories differ: a tape was changed, or backups were mixed")]
    OtherHistory,
    /// Its folder joins, and no operator has begun its replacement.
    #[error("it joins in the place of another folder: begin with wfarmctl replace")]
    NotBegun,
    /// Its folder is a later one of the node than this node was told of.
    #[error("not told of the replacement")]
    NotTold,
    /// Another folder has taken the place of its own.
    #[error("retired: another folder took its place; end it, and never start its folder again")]
    Retired,
}

impl PeerRejection {
    ghost use Rattle.std.specs.Prelude.{◌≡◌, ◌↔◌, Some, IsTrue, IfSome};
    ghost use Rattle.wf_peer.specs.GreetingReply.{EndsANode, accuses, rejection_byte};
    ghost use Rattle.wf_peer.specs.declared.rejection.PeerRejection.{PeerRejection as RejectionValue};

    /// Whether a node that is told this has forgotten something, runs on a copy, or is retired: it
    /// is suspended.
    pub fn ends_a_node(self) -> bool
        ensures { IsTrue result ↔ EndsANode self }
    {
        matches!(
            self,
            PeerRejection::OtherMark
                | PeerRejection::OlderStart
                | PeerRejection::OtherLife
                | PeerRejection::LowerRound
                | PeerRejection::LowerPromise
                | PeerRejection::LowerVote
                | PeerRejection::LowerSequence
                | PeerRejection::Retired
        )
    }

    /// Whether it is kept as an accusation of the folder of which it was heard before. Another
    /// folder is rejected without one.
    pub fn accuses(self) -> bool
        ensures { result ≡ accuses self }
    {
        matches!(
            self,
            PeerRejection::OlderStart
                | PeerRejection::OtherLife
                | PeerRejection::LowerRound
                | PeerRejection::LowerPromise
                | PeerRejection::LowerVote
                | PeerRejection::LowerSequence
        )
    }

    /// The byte by which a peer is told.
    pub fn byte(self) -> u8
        ensures { result ≡ rejection_byte self }
    {
        match self {
            PeerRejection::OtherFarm => 1,
            PeerRejection::OtherNodes => 2,
            PeerRejection::OtherNode => 3,
            PeerRejection::OtherMark => 4,
            PeerRejection::OlderStart => 5,
            PeerRejection::OtherLife => 6,
            PeerRejection::LowerRound => 7,
            PeerRejection::LowerPromise => 8,
            PeerRejection::LowerSequence => 9,
            PeerRejection::OtherHistory => 10,
            PeerRejection::LowerVote => 11,
            PeerRejection::NotBegun => 12,
            PeerRejection::NotTold => 13,
            PeerRejection::Retired => 14,
        }
    }

    /// The rejection with this byte; None if there is none.
    pub fn of_byte(byte: u8) -> Option<PeerRejection>
        ensures value { IfSome result (λ why. byte ≡ rejection_byte why) }
        ensures each { (why : RejectionValue) → byte ≡ rejection_byte why → result ≡ Some why }
    {
        match byte {
            1 => Some(PeerRejection::OtherFarm),
            2 => Some(PeerRejection::OtherNodes),
            3 => Some(PeerRejection::OtherNode),
            4 => Some(PeerRejection::OtherMark),
            5 => Some(PeerRejection::OlderStart),
            6 => Some(PeerRejection::OtherLife),
            7 => Some(PeerRejection::LowerRound),
            8 => Some(PeerRejection::LowerPromise),
            9 => Some(PeerRejection::LowerSequence),
            10 => Some(PeerRejection::OtherHistory),
            11 => Some(PeerRejection::LowerVote),
            12 => Some(PeerRejection::NotBegun),
            13 => Some(PeerRejection::NotTold),
            14 => Some(PeerRejection::Retired),
            _ => None,
        }
    }
}
