ghost use Rattle.std.specs.Prelude.{◌≡◌, ℕ, List, map, string_bytes, IfOk, option_map};
ghost use Rattle.wf_wms.specs.Query.{pairs_of, parameter, is_same_name};

use std::alloc::{AllocError, Global};
use std::marker::Model;

// Whether the names are equal up to ASCII case.
fn is_same_name(a: &str, b: &str) -> bool
    ensures { result ≡ is_same_name a.now b.now }
{
    a.eq_ignore_ascii_case(b)
}

/// The decoded names and values of a query, in order.
#[derive(Drop)]
pub struct Query {
    pairs: Vec<(String, String)>,
}

impl Model for Query {
    ghost Value = { List (List ℕ × List ℕ) };

    ghost view = { λ query.
        map (λ pair. (string_bytes pair.0, string_bytes pair.1)) query.pairs.items };
}

impl Query {
    /// Parses a query string in one pass. Returns Ok unless allocation fails.
    pub fn read(alloc: Global, query: &[u8]) -> Result<Self, AllocError>
        ensures { IfOk result (λ read. read ≡ pairs_of query.now) }
    {
        let mut pairs = Vec::new(alloc);
        for pair in form_urlencoded::parse(alloc, query).into_owned() {
            pairs.push(pair?)?;
        }
        Ok(Query { pairs })
    }

    /// The value of a parameter. Names are compared without ASCII case; the first pair of a
    /// repeated name counts; an empty value counts as absent.
    pub fn parameter(&self, name: &str) -> Option<&str>
        ensures { option_map (λ value. value.now) result ≡ parameter name.now self.now }
    {
        for (given, value) in &self.pairs {
            if is_same_name(given.as_str(), name) {
                let text = value.as_str();
                return if text.is_empty() { None } else { Some(text) };
            }
        }
        None
    }
}
