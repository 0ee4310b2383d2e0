//! A word that spells an address with a port.
ghost use Rattle.std.specs.Prelude.{◌≡◌, ℕ, IfNone, IfSome, List, Some, option_map};
ghost use Rattle.std.specs.Net.Grammar.{IsSocketText};
ghost use Rattle.wf_address.specs.Address.{IsNoAddress, IsSpelledBy};

use std::net::SocketAddr;

/// The address that a word spells. None: it spells none.
pub fn address(word: &str) -> Option<SocketAddr>
    ensures some { IfSome result (IsSocketText word.now) }
    ensures none { IfNone result (IsNoAddress word.now) }
{
    match word.parse::<SocketAddr>() {
        Ok(address) => Some(address),
        Err(_) => None,
    }
}

/// The address that a word spells, if there is a word. None: it spells none.
#[tactic(auto, using(crate::proofs::AddressList::no_address))]
pub fn address_if_any(word: Option<&str>) -> Option<Option<SocketAddr>>
    ensures some { IfSome result (IsSpelledBy (option_map (λ w. w.now) word.entry)) }
    ensures none { IfNone result
        ((text : List ℕ) × (option_map (λ w. w.now) word.entry ≡ Some text) × IsNoAddress text) }
{
    match word {
        Some(word) => match address(word) {
            Some(address) => Some(Some(address)),
            None => None,
        },
        None => Some(None),
    }
}
