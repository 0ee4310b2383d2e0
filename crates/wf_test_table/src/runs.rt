//! Lines that come many times, one after another.
use crate::answer::Transcript;
use std::alloc::Global;

/// A line, with its line feed, and how often it came.
#[derive(Drop)]
pub struct Runs {
    line: Transcript,
    times: usize,
}

impl Runs {
    /// Before the first line.
    pub fn new(alloc: Global) -> Self {
        Runs {
            line: Transcript::new(alloc),
            times: 0,
        }
    }

    /// Appends the line and how often it came, as `3 times: LINE`, if there was one.
    pub fn write(&self, answer: &mut Transcript) {
        if self.times == 0 {
            return;
        }
        answer.count(self.times);
        answer.text(" times: ");
        answer.append(&self.line);
    }

    /// Counts the next line; where it is another one, appends the line before and how often that
    /// came.
    pub fn take(&mut self, line: &Transcript, answer: &mut Transcript) {
        if self.line.text.as_slice() != line.text.as_slice() {
            self.write(answer);
            self.times = 0;
            self.line.clear();
            self.line.append(line);
        }
        self.times = self.times.saturating_add(1);
    }
}
