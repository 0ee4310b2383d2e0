//! Requests of clients to nodes of a farm, and their answers.

ghost use Rattle.std.specs.Prelude.{◌≡◌, IfOk, IfErr, OnOk};
ghost use Rattle.std.specs.String.{string_bytes};
ghost use Rattle.wf_farm.specs.ClientAnswers.{NodeAnswers, sequence_at};
ghost use Rattle.wf_play.specs.Comparison.{Compares, IsTrueWhereOne, IsUncompared, is_same_answer, is_same_kind};
ghost use Rattle.wf_play.specs.Report.{IsAppended, IsOfAnswer, IsOneAppended, IsReportedAbsent, ReportsAnswer, ReportsEqual, exception_line, kind_line, number_of};

use crate::answer::write_no_node;
use crate::session::Session;
use std::alloc::{AllocError, Global};
use std::fmt::Write;
use wf_farm::{Farm, FarmFault};
use wf_wms::{Answer, Exception, Kind};

impl<'s> Session<'s> {
    /// What the node answers to the query: its kind, and how many bytes it has.
    pub(crate) fn write_answer(
        &self,
        alloc: Global,
        number: usize,
        query: &[u8],
        out: &mut String,
    ) -> Result<(), AllocError>
        ensures { OnOk result
            (IsOneAppended (ReportsAnswer self.now.farm number query.now) out.old out.new) }
    {
        write_answer(alloc, &self.farm, number, query, out)
    }

    /// Whether the two nodes answer the query equally.
    #[tactic(auto, using(crate::proofs::Report::of_comparison))]
    pub(crate) fn write_equal(
        &self,
        alloc: Global,
        first: usize,
        second: usize,
        query: &[u8],
        out: &mut String,
    ) -> Result<(), AllocError>
        ensures { OnOk result
            (IsOneAppended (ReportsEqual self.now.farm first second query.now) out.old out.new) }
    {
        match self.equal(alloc, first, second, query) {
            Ok(true) => out.push_str("equal\n"),
            Ok(false) => out.push_str("differ\n"),
            Err(fault) => write_no_answer(fault, out),
        }
    }

    /// Do the two nodes answer the query of a request (OGC 06-042) with the same bytes, of one kind
    /// and one media type? They do where both are at one sequence, and where the query asks both
    /// for one map, by the contract of [`wf_farm::Farm::answers_agree`]. Returns F2 where one of
    /// them is absent or stopped, and F1 with 0 where an allocation failed.
    pub fn equal(
        &self,
        alloc: Global,
        first: usize,
        second: usize,
        query: &[u8],
    ) -> Result<bool, FarmFault>
        ensures test { IfOk result (λ equal. Compares self.now.farm first second query.now equal) }
        ensures theorem { IfOk result
            (λ equal. IsTrueWhereOne self.now.farm first second query.now equal) }
        ensures fault { IfErr result (λ fault. IsUncompared self.now.farm first second fault) }
    {
        compare_nodes(alloc, &self.farm, first, second, query)
    }
}

/// Do the two nodes answer the query equally?
fn compare_nodes(
    alloc: Global,
    farm: &Farm,
    first: usize,
    second: usize,
    query: &[u8],
) -> Result<bool, FarmFault>
    ensures test { IfOk result (λ equal. Compares farm.now first second query.now equal) }
    ensures theorem { IfOk result (λ equal. IsTrueWhereOne farm.now first second query.now equal) }
    ensures fault { IfErr result (λ fault. IsUncompared farm.now first second fault) }
{
    match farm.answer(alloc, first, query) {
        Ok(answer) => {
            let equal = compare_with(alloc, farm, first, second, query, &answer);
            drop(answer);
            equal
        }
        Err(fault) => Err(fault),
    }
}

/// Does the second node answer the query as the first one did?
fn compare_with(
    alloc: Global,
    farm: &Farm,
    first: usize,
    second: usize,
    query: &[u8],
    answer: &Answer,
) -> Result<bool, FarmFault>
    requires { NodeAnswers farm.now first (sequence_at farm.now first) query.now answer.now }
    ensures test { IfOk result (λ equal. Compares farm.now first second query.now equal) }
    ensures theorem { IfOk result (λ equal. IsTrueWhereOne farm.now first second query.now equal) }
    ensures fault { IfErr result (λ fault. IsUncompared farm.now first second fault) }
{
    match farm.answer(alloc, second, query) {
        Ok(another) => {
            let equal = compare(farm, first, second, query, answer, &another);
            drop(another);
            Ok(equal)
        }
        Err(fault) => Err(fault),
    }
}

/// Are these two answers to the query, the first node's and the second's, equal?
fn compare(
    farm: &Farm,
    first: usize,
    second: usize,
    query: &[u8],
    answer: &Answer,
    another: &Answer,
) -> bool
    requires first { NodeAnswers farm.now first (sequence_at farm.now first) query.now answer.now }
    requires second { NodeAnswers farm.now second
        (sequence_at farm.now second) query.now another.now }
    ensures test { Compares farm.now first second query.now result }
    ensures theorem { IsTrueWhereOne farm.now first second query.now result }
{
    // Theorem: nodes at one sequence, or asked for one map, have one answer to a query.
    farm.answers_agree();
    is_same_answer(answer, another)
}

/// Are the answers equal, in their kind, their media type and their bytes?
#[tactic(auto, unfolding(crate::specs::Comparison::is_same_answer))]
fn is_same_answer(answer: &Answer, another: &Answer) -> bool
    ensures { result ≡ is_same_answer answer.now another.now }
{
    is_same_kind(answer.kind, another.kind)
        && answer.media == another.media
        && answer.bytes.as_slice() == another.bytes.as_slice()
}

#[tactic(auto, unfolding(crate::specs::Comparison::is_same_kind))]
fn is_same_kind(kind: Kind, other: Kind) -> bool
    ensures { result ≡ is_same_kind kind other }
{
    kind == other
}

/// What the node answers to the query.
#[tactic(auto, using(crate::proofs::Report::no_answer_reported, crate::proofs::Report::of_answer))]
fn write_answer(
    alloc: Global,
    farm: &Farm,
    number: usize,
    query: &[u8],
    out: &mut String,
) -> Result<(), AllocError>
    ensures { OnOk result (IsOneAppended
        (ReportsAnswer farm.now number query.now) out.old out.new) }
{
    match farm.answer(alloc, number, query) {
        Ok(answer) => {
            let reported = write_kind(number, answer.kind, answer.bytes.len(), out);
            drop(answer);
            reported
        }
        Err(fault) => write_no_answer(fault, out),
    }
}

/// The line about an answer of `size` bytes.
fn write_kind(number: usize, kind: Kind, size: usize, out: &mut String) -> Result<(), AllocError>
    ensures { OnOk result (IsAppended (kind_line number kind size) out.old out.new) }
{
    match kind {
        Kind::Capabilities => writeln!(out, "get {number} capabilities {size}"),
        Kind::Map => writeln!(out, "get {number} map {size}"),
        Kind::Exception(exception) => write_exception(number, exception, size, out),
    }
}

fn write_exception(
    number: usize,
    exception: Exception,
    size: usize,
    out: &mut String,
) -> Result<(), AllocError>
    ensures { OnOk result (IsAppended (exception_line number exception size) out.old out.new) }
{
    let code = number_of(exception);
    writeln!(out, "get {number} exception E{code} {size}")
}

/// Appends that there is no such node, or returns the allocation failure.
fn write_no_answer(fault: FarmFault, out: &mut String) -> Result<(), AllocError>
    requires { IsOfAnswer fault }
    ensures { OnOk result (IsReportedAbsent fault (string_bytes out.old) (string_bytes out.new)) }
{
    match fault {
        FarmFault::NoNode => write_no_node(out),
        FarmFault::Memory(_) => Err(AllocError),
        FarmFault::Carried(_) => unreachable!(),
    }
}

/// The number of an exception, 1 to 10.
fn number_of(exception: Exception) -> u8
    ensures { result ≡ number_of exception }
{
    match exception {
        Exception::MissingParameter(_) => 1,
        Exception::BadValue(_) => 2,
        Exception::LayerNotDefined(_) => 3,
        Exception::StyleNotDefined(_) => 4,
        Exception::InvalidCrs => 5,
        Exception::InvalidFormat => 6,
        Exception::CurrentUpdateSequence => 7,
        Exception::InvalidUpdateSequence => 8,
        Exception::OperationNotSupported => 9,
        Exception::MapNotPublished => 10,
    }
}
