//! Answers of one line. A value that there isn't is `none`.
use std::alloc::AllocError;
use std::fmt::Display;
use wf_test_table::Transcript;

/// Appends that there is no value.
pub fn write_none(answer: &mut Transcript) {
    answer.line("none");
}

/// Appends that a call was made, or remembers that an allocation failed in it.
pub fn write_done(made: Result<(), AllocError>, answer: &mut Transcript) {
    match made {
        Ok(()) => answer.line("done"),
        Err(_) => answer.cut(),
    }
}

/// Appends yes or no.
pub fn write_whether(is_so: bool, answer: &mut Transcript) {
    answer.line(if is_so { "yes" } else { "no" });
}

/// Appends what was read, as it is printed.
pub fn write_read<T: Display + Copy>(value: Option<T>, answer: &mut Transcript) {
    match value {
        Some(value) => write_printed(value, answer),
        None => write_none(answer),
    }
}

/// Appends a value as it is printed, a number in decimal digits.
pub fn write_printed<T: Display + Copy>(value: T, answer: &mut Transcript) {
    answer.value(value);
    answer.line("");
}

/// Appends why a call is rejected, as it is printed.
pub fn write_rejected<T: Display + Copy>(rejection: T, answer: &mut Transcript) {
    answer.text("refused: ");
    write_printed(rejection, answer);
}

/// Appends a value that was read at the front of bytes, and how many bytes are left.
pub fn write_left<T: Display + Copy>(value: T, left: &[u8], answer: &mut Transcript) {
    answer.value(value);
    answer.text(", ");
    answer.count(left.len());
    answer.line(" left");
}

/// Appends bytes and a line feed.
pub fn write_bytes(bytes: &[u8], answer: &mut Transcript) {
    answer.bytes(bytes);
    answer.line("");
}

/// Appends a field's name and its value.
pub fn write_field<T: Display + Copy>(name: &str, value: T, answer: &mut Transcript) {
    answer.text(name);
    answer.value(value);
}
