//! The texts and numbers of a mapfile, as bounded values.
//!
//! A [`Text`] is UTF-8 of at most 1,000 bytes that fits between quotes of one kind. A [`ValueList`]
//! is UTF-8 of at most 1,000 bytes that fits between braces. A [`Micro`] is a coordinate, an
//! integer number of millionths of a unit. A [`Whole`] is an integer in a range. A [`NumberText`]
//! is the text of a coordinate. Model: a `Text`, a `ValueList` and a `NumberText` are their bytes;
//! a `Micro` and a `Whole` are their number.
//!
//! Promises: every value is within the limits of `specs/Limit.antt`. A number is read exactly as
//! `specs/Number.antt` defines and written exactly as `specs/NumberText.antt` defines, both without
//! floating point and without allocating; reading what was written returns the same number. A
//! rejected text returns its first error. Not here: what a map contains (wf_def) and tokens
//! (wf_block).
#![tactic(auto)]

mod digits;
mod fault;
mod limits;
mod micro;
mod number;
mod number_form;
mod number_text;
mod text;
mod value_list;
mod whole;

pub use digits::{are_digits, number_of_digits};
pub use fault::{NumberFault, TextFault};
pub use limits::{
    MOST_FRACTION_DIGITS, MOST_MILLIONTHS, MOST_POWER_DIGITS, MOST_TEXT_BYTES, MOST_WHOLE_DIGITS,
    constants_are_the_limits,
};
pub use micro::Micro;
pub use number_form::{number_form_is_exact, number_is_read_again};
pub use number_text::{NumberText, write_number};
pub use text::{Text, check_text, is_text_character};
pub use value_list::{ValueList, check_list};
pub use whole::Whole;
