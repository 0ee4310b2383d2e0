//! Tokens.
use wf_block::{LexFault, LexFaultKind, Token, TokenKind, Tokens, tokenize};
use wf_test_table::{Answered, CaseInput, Runs, Transcript, Unanswered, unescape};

// Appends a word as `offset:word`, a string as `offset"string"`, a list as `offset{list}`; without
// its text as `offset:`, `offset"` or `offset{`.
fn write_token(token: Token<'_>, whole: bool, answer: &mut Transcript) {
    answer.count(token.byte_offset);
    answer.text(match token.kind {
        TokenKind::Word => ":",
        TokenKind::Quoted => "\"",
        TokenKind::Braced => "{",
    });
    if whole {
        answer.bytes(token.text);
        answer.text(match token.kind {
            TokenKind::Word => "",
            TokenKind::Quoted => "\"",
            TokenKind::Braced => "}",
        });
    }
}

// Appends an error as `M4@offset`.
fn write_fault(fault: LexFault, answer: &mut Transcript) {
    answer.text(match fault.kind {
        LexFaultKind::BadToken => "M4@",
        LexFaultKind::OutOfRange => "M8@",
    });
    answer.count(fault.byte_offset);
}

// Appends a line: the tokens and the error, with spaces between.
fn write_tokens(lexed: &Tokens<'_>, whole: bool, answer: &mut Transcript) {
    let mut space = "";
    for token in &lexed.tokens {
        answer.text(space);
        space = " ";
        write_token(*token, whole, answer);
    }
    if let Some(fault) = lexed.fault {
        answer.text(space);
        write_fault(fault, answer);
    }
    answer.line("");
}

fn print_tokens(asked: CaseInput<'_>, whole: bool, answer: &mut Transcript) {
    match tokenize(asked.alloc, asked.input) {
        Ok(lexed) => {
            write_tokens(&lexed, whole, answer);
            drop(lexed);
        }
        Err(_) => answer.cut(),
    }
}

/// `tokens`: the tokens of the input with their byte offsets, and the error that ends them.
pub(crate) fn tokens(asked: CaseInput<'_>, answer: &mut Transcript) -> Answered {
    print_tokens(asked, true, answer);
    Ok(())
}

fn write_between(front: &str, byte: u8, back: &str, text: &mut Transcript) -> Answered {
    unescape(front, text)?;
    text.bytes(&[byte]);
    unescape(back, text)
}

fn print_shapes(asked: CaseInput<'_>, text: &Transcript, answer: &mut Transcript) {
    match text.finished_text() {
        Ok(input) => print_tokens(CaseInput { input, ..asked }, false, answer),
        Err(_) => answer.cut(),
    }
}

fn take_byte(
    asked: CaseInput<'_>,
    (front, back): (&str, &str),
    byte: u8,
    runs: &mut Runs,
    answer: &mut Transcript,
) -> Answered {
    let mut text = Transcript::new(asked.alloc);
    let mut shapes = Transcript::new(asked.alloc);
    let written = write_between(front, byte, back, &mut text);
    print_shapes(asked, &text, &mut shapes);
    runs.take(&shapes, answer);
    drop(shapes);
    drop(text);
    written
}

fn take_bytes(
    asked: CaseInput<'_>,
    around: (&str, &str),
    runs: &mut Runs,
    answer: &mut Transcript,
) -> Answered {
    for byte in asked.input {
        take_byte(asked, around, *byte, runs, answer)?;
    }
    Ok(())
}

/// `each_byte FRONT|BACK`: the byte offsets and kinds of the tokens, where each byte of the input
/// in turn is between FRONT and BACK.
pub(crate) fn each_byte(asked: CaseInput<'_>, answer: &mut Transcript) -> Answered {
    let Some(around) = asked.words.rest().split_once('|') else {
        return Err(Unanswered::BadWords);
    };
    let mut runs = Runs::new(asked.alloc);
    let taken = take_bytes(asked, around, &mut runs, answer);
    runs.write(answer);
    drop(runs);
    taken
}
