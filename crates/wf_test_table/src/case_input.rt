//! What a question receives.
use crate::questions::Unanswered;
use crate::words::CaseWords;
use std::alloc::Global;

/// The words after `ask`, or those of them that are left, with their escapes; and the input.
#[derive(Clone, Copy)]
pub struct CaseInput<'a> {
    pub alloc: Global,
    pub words: CaseWords<'a>,
    pub input: &'a [u8],
}

impl<'a> CaseInput<'a> {
    /// The input as a text, where it has to be one.
    pub fn text(self) -> Result<&'a str, Unanswered> {
        match str::from_utf8(self.input) {
            Ok(text) => Ok(text),
            Err(_) => Err(Unanswered::BadWords),
        }
    }
}
