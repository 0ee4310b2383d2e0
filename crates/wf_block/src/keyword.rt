//! Keywords: words that are compared without regard to letter case.
ghost use Rattle.std.specs.Prelude.{◌≡◌};
ghost use Rattle.std.specs.Str.{str_eq_ignore_ascii_case};
ghost use Rattle.wf_block.specs.Grammar.{is_end};

/// Whether a text is this name, without regard to ASCII letter case.
#[tactic(auto, using(crate::proofs::Blocks::tested))]
pub fn is_name(text: &[u8], name: &str) -> bool
    ensures { result ≡ str_eq_ignore_ascii_case text.now name.now }
{
    text.eq_ignore_ascii_case(name.as_bytes())
}

/// Whether a word is END, which closes a block.
#[tactic(auto, unfolding(crate::specs::Grammar::is_end))]
pub fn is_end(word: &[u8]) -> bool
    ensures { result ≡ is_end word.now }
{
    is_name(word, "END")
}
