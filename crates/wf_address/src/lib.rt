//! The addresses of a command line: an address with a port, as `127.0.0.1:8080`, and a list of such
//! between commas.
//!
//! [`address`] parses one, [`address_if_any`] that of an option that may be absent, and
//! [`addresses`] a list of at most 64, in order, or says which word of it is the first that spells
//! none (`specs/Address.antt`). An [`AddressOption`] is an option whose value is an address.
//!
//! Not here: what the addresses are for, and the line that an error is printed as.
#![tactic(auto)]

mod address_option;
mod list;
mod word;

pub use address_option::AddressOption;
pub use list::{ListFault, addresses};
pub use word::{address, address_if_any};
