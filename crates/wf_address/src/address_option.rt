//! The options of a command line whose values are addresses.

use std::fmt;

/// An option whose value is an address. Its text is the option as it is given.
#[derive(Clone, Copy, Debug)]
pub enum AddressOption {
    /// `--http`
    Http,
    /// `--listen`
    Listen,
    /// `--admin`
    Admin,
    /// `--readers`
    Readers,
}

impl fmt::Display for AddressOption {
    fn fmt<W: fmt::Write>(&self, f: &mut fmt::Formatter<W>) -> fmt::Result {
        f.write_str(match self {
            AddressOption::Http => "--http",
            AddressOption::Listen => "--listen",
            AddressOption::Admin => "--admin",
            AddressOption::Readers => "--readers",
        })
    }
}
