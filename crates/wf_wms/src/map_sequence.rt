//! The MAPSEQ parameter: the update sequence of the requested map.
ghost use Rattle.std.specs.Prelude.{◌≡◌, ◌≤◌, IfOk, option_map};
ghost use Rattle.wf_wms.specs.MapRequest.{map_sequence, sequence_in};

use crate::exception::{Exception, Parameter};
use crate::format::check_version;
use crate::query::Query;
use wf_text::{are_digits, number_of_digits};

/// The sequence of the map that a query requests at a server at update sequence `seq`; VERSION is
/// checked first.
#[tactic(auto, unfolding(crate::specs::MapRequest::map_sequence))]
pub(crate) fn map_sequence(query: &Query, seq: u16) -> Result<u16, Exception>
    ensures value { result ≡ map_sequence seq query.now }
    ensures within { IfOk result (λ number. number ≤ seq) }
{
    check_version(query.parameter("VERSION"))?;
    sequence_in(query.parameter("MAPSEQ"), seq)
}

/// The sequence that MAPSEQ names at a server at update sequence `seq`; `seq` if it is absent.
/// Digits may have any length.
fn sequence_in(value: Option<&str>, seq: u16) -> Result<u16, Exception>
    ensures value { result ≡ sequence_in seq (option_map (λ text. text.now) value.entry) }
    ensures within { IfOk result (λ number. number ≤ seq) }
{
    let Some(text) = value else {
        return Ok(seq);
    };
    if !are_digits(text.as_bytes()) {
        return Err(Exception::BadValue(Parameter::MapSequence));
    }
    let number = number_of_digits(text.as_bytes());
    if number > u64::from(seq) {
        Err(Exception::MapNotPublished)
    } else {
        Ok(number as u16)
    }
}
