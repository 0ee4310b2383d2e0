//! The answer to a question, while it is written.
use std::alloc::{AllocError, Global};
use std::fmt::Display;

/// What is appended so far. Where an allocation fails in an append, the answer remembers that and
/// [`Transcript::finished_text`] returns it; the calls that append return no error.
pub struct Transcript {
    pub(crate) text: Vec<u8>,
    pub(crate) is_cut: bool,
}

impl Drop for Transcript {
    fn drop(self) {
        let Transcript { text, is_cut: _ } = self;
        drop(text);
    }
}

impl Transcript {
    /// An empty answer.
    pub fn new(alloc: Global) -> Self {
        Transcript {
            text: Vec::new(alloc),
            is_cut: false,
        }
    }

    /// Appends bytes.
    pub fn bytes(&mut self, bytes: &[u8]) {
        if self.text.extend_from_slice(bytes).is_err() {
            self.is_cut = true;
        }
    }

    /// Appends a text.
    pub fn text(&mut self, text: &str) {
        self.bytes(text.as_bytes());
    }

    /// Appends texts, one after the other.
    pub fn texts(&mut self, texts: &[&str]) {
        for text in texts {
            self.text(*text);
        }
    }

    /// Appends a text and a line feed.
    pub fn line(&mut self, text: &str) {
        self.text(text);
        self.text("\n");
    }

    /// Appends a value as it is printed.
    pub fn value<T: Display + Copy>(&mut self, value: T) {
        match value.to_string(*self.text.allocator()) {
            Ok(printed) => {
                self.text(printed.as_str());
                drop(printed);
            }
            Err(_) => self.is_cut = true,
        }
    }

    /// Appends a number in decimal digits.
    pub fn number(&mut self, number: i64) {
        self.value(number);
    }

    /// Appends a count in decimal digits.
    pub fn count(&mut self, count: usize) {
        self.value(count);
    }

    /// Appends what another answer holds.
    pub fn append(&mut self, other: &Transcript) {
        self.bytes(&other.text);
        self.is_cut = self.is_cut || other.is_cut;
    }

    /// Empties the answer.
    pub fn clear(&mut self) {
        self.text.clear();
        self.is_cut = false;
    }

    /// Remembers that an allocation failed.
    pub fn cut(&mut self) {
        self.is_cut = true;
    }

    /// The buffer, for a call that appends by itself.
    pub fn target(&mut self) -> &mut Vec<u8> {
        &mut self.text
    }

    /// What was appended, unless an allocation failed.
    pub fn finished_text(&self) -> Result<&[u8], AllocError> {
        if self.is_cut {
            Err(AllocError)
        } else {
            Ok(&self.text)
        }
    }
}
