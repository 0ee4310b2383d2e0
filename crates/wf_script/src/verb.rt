//! Verbs: the first words of lines.

ghost use Rattle.std.specs.Prelude.{◌≡◌};
ghost use Rattle.wf_script.specs.Verb.{verb_of};

/// What a line is about.
#[derive(Clone, Copy)]
pub(crate) enum Verb {
    Map,
    Propose,
    Retry,
    CatchUp,
    Deliver,
    Cut,
    Stop,
    Restart,
    Torn,
    Pump,
    Skip,
    Published,
    Sent,
    Proposal,
    Definition,
    Same,
    Get,
    Equal,
}

impl Verb {
    /// The verb that a word is.
    #[tactic(auto, unfolding(crate::specs::Verb::verb_of))]
    pub(crate) fn of(word: &str) -> Option<Verb>
        ensures { result ≡ verb_of word.now }
    {
        match word {
            "map" => Some(Verb::Map),
            "propose" => Some(Verb::Propose),
            "retry" => Some(Verb::Retry),
            "catchup" => Some(Verb::CatchUp),
            "deliver" => Some(Verb::Deliver),
            "cut" => Some(Verb::Cut),
            "stop" => Some(Verb::Stop),
            "restart" => Some(Verb::Restart),
            "torn" => Some(Verb::Torn),
            "pump" => Some(Verb::Pump),
            "skip" => Some(Verb::Skip),
            "published" => Some(Verb::Published),
            "sent" => Some(Verb::Sent),
            "proposal" => Some(Verb::Proposal),
            "definition" => Some(Verb::Definition),
            "same" => Some(Verb::Same),
            "get" => Some(Verb::Get),
            "equal" => Some(Verb::Equal),
            _ => None,
        }
    }
}
