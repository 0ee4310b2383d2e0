//! The tokens of a mapfile and its blocks: from bytes to words, strings and lists, and from these
//! to keywords with their arguments, up to END.
//!
//! A text has a list of tokens or none (MapServer mapfile reference, the part of it that
//! `specs/Token.antt` defines as an automaton over bytes): words, strings in either quote, lists in
//! braces, white space and two kinds of comment. A mapfile is made of blocks: MAP, LAYER, CLASS and
//! so on, each a list of keywords with their arguments. This crate has what the readers of all
//! blocks share. Model: a token is its kind and its bytes, without its byte offset; a [`Parser`] is
//! the list of the remaining tokens; a reader is a function from a list of tokens to the value at
//! its front and the tokens after it, or none, as `specs/Grammar.antt` defines; a block is a table
//! of its keywords, each with what it reads and what it sets, as `specs/Steps.antt` defines.
//!
//! Promises: [`tokenize`] returns the tokens of a text, and an error only if the text has none. It
//! looks at each byte a bounded number of times. Tokens that are spelled as lines, as
//! `specs/Spelling.antt` defines, are read back as the same tokens, and such lines are UTF-8:
//! theorems about the definitions. A reader that returns a value returns what the tokens mean and
//! leaves the tokens after it; if it returns an error other than allocation failure, the tokens
//! mean nothing (`Gives` of `specs/ReadContract.antt`). [`fill_block`] keeps that promise for
//! every block whose step (`take` of [`Slots`]) does. Which error, its byte offset, and where the
//! reader is then ([`Parser::place`]: the block, the keyword, what it lacks), is tested and not
//! proved. Not here: which keywords a block has, and what it means (wf_class, wf_feature,
//! wf_mapfile), and which lines a map has (wf_canon).
//!
//! Modules: `lexer` steps over a text; each step finds a `lexeme` at its front, and the lexer
//! collects each `token`; `spelling` (theorems on how tokens are written); `parser` (readers of
//! tokens), `keyword` (words without regard to letter case), `choice` (one of a table's names),
//! `block` (keywords up to END, for any block), `place` (where the reader is), `default` (values of
//! absent keywords), `fault` (the errors of a mapfile).
#![tactic(auto)]

mod block;
mod choice;
mod default;
mod fault;
mod keyword;
mod lexeme;
mod lexer;
mod parser;
mod place;
mod spelling;
mod token;

pub use block::{Slots, fill_block, keep};
pub use choice::choose;
pub use default::{or_least, text_or, text_or_empty};
pub use fault::MapFault;
pub use keyword::{is_end, is_name};
pub use lexer::{is_slash, tokenize};
pub use parser::Parser;
pub use place::{Block, Place};
pub use spelling::{numbers_are_words, spelled_lines_are_read_again, spelled_lines_are_utf8};
pub use token::{LexFault, LexFaultKind, Token, TokenKind, Tokens};
