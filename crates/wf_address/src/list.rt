//! A list of addresses.
ghost use Rattle.std.specs.Prelude.{◌≡◌, ◌≤◌, ◌<◌, IfErr, IfNone, IfOk, IfSome, length};
ghost use Rattle.wf_address.specs.Address.{AreAddresses, IsBadWordAt, SpellsAt, texts, words_of, IsListFault};

use crate::word::address;
use std::alloc::{AllocError, Global};
use std::net::SocketAddr;
use thiserror::Error;

/// The most addresses in a list.
const MOST_ADDRESSES: usize = 64;

/// Why the words of a list aren't taken as addresses.
#[derive(Clone, Copy, Debug, Error, PartialEq, Eq)]
pub enum ListFault {
    /// The word at this index is the first that spells no address.
    #[error("bad address: that at {0}")]
    Bad(usize),
    /// So many words are too many.
    #[error("{0} addresses, at most 64 are allowed")]
    Count(usize),
    /// An allocation failed.
    #[error("out of memory")]
    Memory,
}

/// The words of a list, between commas.
fn words(alloc: Global, list: &str) -> Result<Vec<&str>, AllocError>
    ensures { IfOk result (λ words. texts words.items ≡ words_of list.now) }
{
    list.split(',').collect(alloc)
}

/// The addresses of a list with commas, in order.
#[tactic(auto, using(crate::proofs::AddressList::count_of_list, crate::proofs::AddressList::found_of_list, crate::proofs::AddressList::fault_of_list))]
pub fn addresses(alloc: Global, list: &str) -> Result<Vec<SocketAddr>, ListFault>
    ensures found { IfOk result (λ found. AreAddresses (words_of list.now) found.items) }
    ensures most { IfOk result (λ found. length found.items ≤ 64) }
    ensures fault { IfErr result (IsListFault (words_of list.now)) }
{
    let Ok(words) = words(alloc, list) else {
        return Err(ListFault::Memory);
    };
    if MOST_ADDRESSES < words.len() {
        return Err(ListFault::Count(words.len()));
    }
    all_addresses(alloc, &words)
}

/// The addresses that words spell.
#[tactic(auto, using(crate::proofs::AddressList::none_yet, crate::proofs::AddressList::one_more, crate::proofs::AddressList::all_taken, crate::proofs::AddressList::first_bad))]
fn all_addresses(alloc: Global, words: &[&str]) -> Result<Vec<SocketAddr>, ListFault>
    requires { length words.now ≤ 64 }
    ensures found { IfOk result (λ found. AreAddresses (texts words.now) found.items) }
    ensures most { IfOk result (λ found. length found.items ≤ 64) }
    ensures fault { IfErr result (IsListFault (texts words.now)) }
{
    let mut found = Vec::new(alloc);
    for index in 0..words.len() {
        match address_at(words, index) {
            Some(address) => {
                if found.push(address).is_err() {
                    return Err(ListFault::Memory);
                }
            }
            None => return Err(ListFault::Bad(index)),
        }
    }
    Ok(found)
}

/// The address that the word at an index spells.
#[tactic(auto, using(crate::proofs::AddressList::word_at))]
fn address_at(words: &[&str], index: usize) -> Option<SocketAddr>
    requires { index < length words.now }
    ensures some { IfSome result (SpellsAt (texts words.now) index) }
    ensures none { IfNone result (IsBadWordAt (texts words.now) index) }
{
    address(words[index])
}
