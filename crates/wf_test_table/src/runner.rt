//! The runner: line by line through a table.
ghost use Rattle.std.specs.Prelude.{◌≡◌, ◌≤◌};

use crate::answer::Transcript;
use crate::case_input::CaseInput;
use crate::counts::CaseCounts;
use crate::escape::{escape, unescape};
use crate::fault::TableFault;
use crate::questions::Questions;
use crate::table_line::{Content, TableLine, read_line};
use crate::words::CaseWords;
use std::alloc::{AllocError, Global};
use std::mem;

#[derive(Drop)]
struct NamedText<'a> {
    name: &'a str,
    body: Transcript,
}

// What the lines of content belong to, with the number and the name of the line that began it.
#[derive(Clone, Copy)]
enum CaseBlock<'a> {
    Nothing,
    Text(u64, &'a str),
    Case(u64, &'a str),
    // A case that is a list of rows.
    Rows(&'a str),
}

#[derive(Drop)]
struct Runner<'a> {
    alloc: Global,
    texts: Vec<NamedText<'a>>,
    block: CaseBlock<'a>,
    question: Option<&'a str>,
    input: Transcript,
    expected: Transcript,
    counts: CaseCounts,
}

fn write_spelled(text: &str, out: &mut Transcript) -> Result<(), TableFault> {
    match unescape(text, out) {
        Ok(()) => Ok(()),
        Err(_) => Err(TableFault::BadEscape),
    }
}

fn write_pieces(count: u32, piece: &Transcript, out: &mut Transcript) {
    for _ in 0..count {
        out.append(piece);
    }
}

fn write_times(
    alloc: Global,
    count: u32,
    text: &str,
    out: &mut Transcript,
) -> Result<(), TableFault> {
    let mut piece = Transcript::new(alloc);
    let spelled = write_spelled(text, &mut piece);
    if spelled.is_ok() {
        write_pieces(count, &piece, out);
    }
    drop(piece);
    spelled
}

// The text of a name.
fn find_text<'t>(texts: &'t [NamedText<'_>], name: &str) -> Option<&'t Transcript> {
    for text in texts {
        if text.name == name {
            return Some(&text.body);
        }
    }
    None
}

fn write_named(
    texts: &[NamedText<'_>],
    name: &str,
    out: &mut Transcript,
) -> Result<(), TableFault> {
    match find_text(texts, name) {
        Some(body) => out.append(body),
        None => return Err(TableFault::UnknownText),
    }
    Ok(())
}

fn write_content_line(text: &str, out: &mut Transcript) -> Result<(), TableFault> {
    write_spelled(text, out)?;
    out.text("\n");
    Ok(())
}

fn write_content(
    alloc: Global,
    texts: &[NamedText<'_>],
    content: Content<'_>,
    out: &mut Transcript,
) -> Result<(), TableFault> {
    match content {
        Content::Line(text) => write_content_line(text, out),
        Content::Piece(text) => write_spelled(text, out),
        Content::Times(count, text) => write_times(alloc, count, text, out),
        Content::Named(name) => write_named(texts, name, out),
    }
}

fn write_line_number(number: u64, report: &mut Transcript) {
    report.text("line ");
    report.value(number);
    report.text(": ");
}

fn write_escaped(title: &str, bytes: &[u8], report: &mut Transcript) {
    report.text(title);
    escape(bytes, report);
    report.text("\n");
}

fn write_counts(counts: CaseCounts, report: &mut Transcript) {
    report.value(counts.cases);
    report.text(" cases, ");
    report.value(counts.differing);
    report.text(" differ, ");
    report.value(counts.faults);
    report.line(" faults of the table");
}

impl<'a> Runner<'a> {
    fn new(alloc: Global) -> Self {
        Runner {
            alloc,
            texts: Vec::new(alloc),
            block: CaseBlock::Nothing,
            question: None,
            input: Transcript::new(alloc),
            expected: Transcript::new(alloc),
            counts: CaseCounts::NONE,
        }
    }

    // Counts an error and reports it; allocation failure is no error of the table.
    fn report_fault(
        &mut self,
        number: u64,
        fault: TableFault,
        report: &mut Transcript,
    ) -> Result<(), AllocError>
        ensures kept { self.new.counts.differing ≡ self.old.counts.differing }
    {
        if let TableFault::Memory = fault {
            return Err(AllocError);
        }
        self.counts.count_fault();
        write_line_number(number, report);
        report.line(fault.words());
        Ok(())
    }

    // Reports why a line can't be read, where it can't.
    fn settle(
        &mut self,
        number: u64,
        taken: Result<(), TableFault>,
        report: &mut Transcript,
    ) -> Result<(), AllocError>
        ensures kept { self.new.counts.differing ≡ self.old.counts.differing }
    {
        match taken {
            Ok(()) => Ok(()),
            Err(fault) => self.report_fault(number, fault, report),
        }
    }

    // Compares an answer with the expected one, and reports a difference.
    fn judge(&mut self, number: u64, name: &str, given: &[u8], report: &mut Transcript)
        // Where no difference is counted, the answer is the expected one.
        ensures reported { self.new.counts.differing ≡ 0 →
            self.old.expected.text.items ≡ given.now }
        ensures kept { self.old.counts.differing ≤ self.new.counts.differing }
    {
        if self.counts.compare(&self.expected.text, given) {
            return;
        }
        write_line_number(number, report);
        report.line(name);
        write_escaped("  expected: ", &self.expected.text, report);
        write_escaped("  given:    ", given, report);
    }

    // Compares the answer that was written, unless an allocation failed.
    fn judge_written(
        &mut self,
        number: u64,
        name: &str,
        given: &Transcript,
        report: &mut Transcript,
    ) -> Result<(), TableFault>
        ensures kept { self.old.counts.differing ≤ self.new.counts.differing }
    {
        if self.input.is_cut || self.expected.is_cut || given.is_cut {
            return Err(TableFault::Memory);
        }
        self.judge(number, name, &given.text, report);
        Ok(())
    }

    // Appends the answer to the question about the input that is gathered.
    fn ask<Q: Questions>(&self, questions: &Q, given: &mut Transcript) -> Result<(), TableFault> {
        if self.expected.text.is_empty() {
            return Err(TableFault::NoAnswer);
        }
        let Some(words) = self.question else {
            return Err(TableFault::NoQuestion);
        };
        let asked = CaseInput {
            alloc: self.alloc,
            words: CaseWords::new(words),
            input: &self.input.text,
        };
        match questions.answer(asked, given) {
            Ok(()) => Ok(()),
            Err(unanswered) => Err(TableFault::from(unanswered)),
        }
    }

    // Asks the question about the input that is gathered, and compares the answer.
    fn put<Q: Questions>(
        &mut self,
        questions: &Q,
        number: u64,
        name: &str,
        report: &mut Transcript,
    ) -> Result<(), TableFault>
        ensures kept { self.old.counts.differing ≤ self.new.counts.differing }
    {
        let mut given = Transcript::new(self.alloc);
        let put = match self.ask(questions, &mut given) {
            Ok(()) => self.judge_written(number, name, &given, report),
            Err(fault) => Err(fault),
        };
        drop(given);
        put
    }

    fn keep_text(&mut self, name: &'a str) -> Result<(), TableFault>
        ensures kept { self.new.counts ≡ self.old.counts }
    {
        if find_text(&self.texts, name).is_some() {
            return Err(TableFault::NameTaken);
        }
        let body = mem::replace(&mut self.input, Transcript::new(self.alloc));
        if self.texts.push(NamedText { name, body }).is_err() {
            return Err(TableFault::Memory);
        }
        Ok(())
    }

    fn clear(&mut self)
        ensures kept { self.new.counts ≡ self.old.counts }
    {
        self.input.clear();
        self.expected.clear();
    }

    // Ends the text or the case that the lines so far belong to.
    fn close<Q: Questions>(
        &mut self,
        questions: &Q,
        report: &mut Transcript,
    ) -> Result<(), AllocError>
        ensures kept { self.old.counts.differing ≤ self.new.counts.differing }
    {
        let (number, closed) = match self.block {
            CaseBlock::Nothing | CaseBlock::Rows(_) => (0, Ok(())),
            CaseBlock::Text(number, name) => (number, self.keep_text(name)),
            CaseBlock::Case(number, name) => (number, self.put(questions, number, name, report)),
        };
        self.block = CaseBlock::Nothing;
        self.question = None;
        self.clear();
        self.settle(number, closed, report)
    }

    fn add_input(&mut self, content: Content<'_>) -> Result<(), TableFault>
        ensures kept { self.new.counts ≡ self.old.counts }
    {
        match self.block {
            CaseBlock::Text(..) | CaseBlock::Case(..) => {
                write_content(self.alloc, &self.texts, content, &mut self.input)
            }
            _ => Err(TableFault::Misplaced),
        }
    }

    fn add_expected(&mut self, content: Content<'_>) -> Result<(), TableFault>
        ensures kept { self.new.counts ≡ self.old.counts }
    {
        match self.block {
            CaseBlock::Case(..) => {
                write_content(self.alloc, &self.texts, content, &mut self.expected)
            }
            _ => Err(TableFault::Misplaced),
        }
    }

    fn take_question(&mut self, words: &'a str) -> Result<(), TableFault>
        ensures kept { self.new.counts ≡ self.old.counts }
    {
        match self.block {
            CaseBlock::Case(..) if self.question.is_none() => {
                self.question = Some(words);
                Ok(())
            }
            _ => Err(TableFault::Misplaced),
        }
    }

    // Has the case no content so far?
    fn is_bare(&self) -> bool {
        self.input.text.is_empty() && self.expected.text.is_empty()
    }

    // The name of the case that a row belongs to.
    fn name_of_rows(&self) -> Result<&'a str, TableFault> {
        match self.block {
            CaseBlock::Rows(name) => Ok(name),
            CaseBlock::Case(_, name) if self.is_bare() => Ok(name),
            _ => Err(TableFault::Misplaced),
        }
    }

    // Replaces what was gathered with a row's content.
    fn gather(&mut self, input: &str, answer: &str) -> Result<(), TableFault>
        ensures kept { self.new.counts ≡ self.old.counts }
    {
        self.clear();
        write_spelled(input, &mut self.input)?;
        write_content_line(answer, &mut self.expected)
    }

    fn row<Q: Questions>(
        &mut self,
        questions: &Q,
        number: u64,
        input: &str,
        answer: &str,
        report: &mut Transcript,
    ) -> Result<(), TableFault>
        ensures kept { self.old.counts.differing ≤ self.new.counts.differing }
    {
        let name = self.name_of_rows()?;
        self.block = CaseBlock::Rows(name);
        self.gather(input, answer)?;
        self.put(questions, number, name, report)
    }

    fn begin<Q: Questions>(
        &mut self,
        questions: &Q,
        block: CaseBlock<'a>,
        report: &mut Transcript,
    ) -> Result<(), TableFault>
        ensures kept { self.old.counts.differing ≤ self.new.counts.differing }
    {
        let closed = self.close(questions, report);
        self.block = block;
        match closed {
            Ok(()) => Ok(()),
            Err(_) => Err(TableFault::Memory),
        }
    }

    fn follow<Q: Questions>(
        &mut self,
        questions: &Q,
        number: u64,
        line: TableLine<'a>,
        report: &mut Transcript,
    ) -> Result<(), TableFault>
        ensures kept { self.old.counts.differing ≤ self.new.counts.differing }
    {
        match line {
            TableLine::Nothing => Ok(()),
            TableLine::Text(name) => self.begin(questions, CaseBlock::Text(number, name), report),
            TableLine::Case(name) => self.begin(questions, CaseBlock::Case(number, name), report),
            TableLine::Ask(words) => self.take_question(words),
            TableLine::Row(input, answer) => self.row(questions, number, input, answer, report),
            TableLine::Input(content) => self.add_input(content),
            TableLine::Expected(content) => self.add_expected(content),
        }
    }

    fn take<Q: Questions>(
        &mut self,
        questions: &Q,
        number: u64,
        line: &'a str,
        report: &mut Transcript,
    ) -> Result<(), AllocError>
        ensures kept { self.old.counts.differing ≤ self.new.counts.differing }
    {
        let taken = match read_line(line) {
            Ok(line) => self.follow(questions, number, line, report),
            Err(fault) => Err(fault),
        };
        self.settle(number, taken, report)
    }

    fn take_all<Q: Questions>(
        &mut self,
        questions: &Q,
        table: &'a str,
        report: &mut Transcript,
    ) -> Result<(), AllocError> {
        let mut number = 0u64;
        for line in table.lines() {
            number = number.saturating_add(1);
            self.take(questions, number, line, report)?;
        }
        self.close(questions, report)
    }
}

/// Asks each case of a table, and appends the report: the answers that differ, the errors of the
/// table, and the counts on the last line. The run ends at the first question in which an
/// allocation fails.
pub fn run_table<Q: Questions>(
    alloc: Global,
    questions: &Q,
    table: &str,
    report: &mut Transcript,
) -> Result<CaseCounts, AllocError> {
    let mut runner = Runner::new(alloc);
    let taken = runner.take_all(questions, table, report);
    let counts = runner.counts;
    drop(runner);
    match taken {
        Ok(()) => {
            write_counts(counts, report);
            Ok(counts)
        }
        Err(error) => Err(error),
    }
}
