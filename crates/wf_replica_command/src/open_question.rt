//! A question that has no reply yet.

ghost use Rattle.std.specs.Prelude.{◌≡◌, ◌+◌, ◌≤◌, IfOk, IsTrue, drop, length, take};
ghost use Rattle.wf_reader.specs.Question.{IsQuestion, question_bytes};

use std::alloc::{AllocError, Global};
use wf_reader::{Question, encode_question};

/// A question that has no reply yet, its bytes, and how many of them were written.
#[derive(Drop)]
pub(crate) struct OpenQuestion {
    question: Question,
    bytes: Vec<u8>,
    written: usize,
    ghost is_question: { IsQuestion question },
    ghost encoded: { bytes.items ≡ question_bytes question },
    ghost within: { written ≤ length bytes.items },
}

impl OpenQuestion {
    /// Nothing of it is written. The only error is allocation failure.
    pub(crate) fn new(alloc: Global, question: &Question) -> Result<OpenQuestion, AllocError>
        ensures question { IfOk result (λ asked. asked.question ≡ question.now) }
        ensures written { IfOk result (λ asked. asked.written ≡ 0) }
    {
        let mut bytes = Vec::new(alloc);
        encode_question(question, &mut bytes)?;
        Ok(OpenQuestion {
            question: *question,
            bytes,
            written: 0,
        })
    }

    /// The question.
    pub(crate) fn question(&self) -> Question
        ensures value { result ≡ self.now.question }
        ensures question { IsQuestion result }
    {
        self.question
    }

    /// The bytes that are still to be written.
    pub(crate) fn rest(&self) -> &[u8]
        ensures { result.now ≡ drop self.now.written self.now.bytes.items }
    {
        self.bytes.as_slice().split_at(self.written).1
    }

    /// Whether all of them were written.
    #[tactic(auto, using(crate::proofs::Conversing::all_written))]
    pub(crate) fn is_written(&self) -> bool
        ensures { IsTrue result →
            take self.now.written self.now.bytes.items ≡ question_bytes self.now.question }
    {
        self.bytes.len() <= self.written
    }

    /// So many more bytes were written.
    pub(crate) fn advance(&mut self, count: usize)
        requires { self.old.written + count ≤ length self.old.bytes.items }
        ensures question { self.new.question ≡ self.old.question }
        ensures bytes { self.new.bytes ≡ self.old.bytes }
        ensures written { self.new.written ≡ self.old.written + count }
    {
        self.written += count;
    }
}
