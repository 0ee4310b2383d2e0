ghost use Rattle.std.specs.Prelude.{◌≡◌};
ghost use Rattle.wf_ballot.specs.Majority.{is_majority_of, MajoritiesMeet};

/// Whether `count` of `n` nodes is a majority: twice the count is more than `n`.
#[tactic(auto, unfolding(crate::specs::Majority::is_majority_of))]
pub fn is_majority(count: usize, n: usize) -> bool
    ensures { result ≡ is_majority_of count n }
{
    count > n / 2
}

/// Two majorities of the same nodes share a node. A theorem about the definitions: the call does
/// nothing.
pub fn majorities_meet()
    ensures { MajoritiesMeet }
{}
