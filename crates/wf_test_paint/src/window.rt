//! Which pixels of a picture are written.
use crate::letter::letter_of;
use crate::section::read_other_side;
use wf_def::Color;
use wf_paint::Pixmap;
use wf_test_table::{Answered, CaseWords, Transcript, Unanswered};

/// Some columns and rows of a picture from a first one on, counted from the left and from the
/// bottom.
#[derive(Clone, Copy)]
pub(crate) struct Window {
    column: u32,
    row: u32,
    width: u32,
    height: u32,
}

impl Window {
    /// The window that `COLUMN ROW, W by H of` names.
    pub fn read(words: &mut CaseWords<'_>) -> Result<Window, Unanswered> {
        let mut corner = CaseWords::new(words.part());
        let column = corner.number()?;
        let row = corner.number()?;
        let width = words.number()?;
        let height = read_other_side(words)?;
        match words.word() {
            "of" => Ok(Window {
                column,
                row,
                width,
                height,
            }),
            _ => Err(Unanswered::BadWords),
        }
    }

    /// All of a picture.
    pub fn whole(pixmap: &Pixmap) -> Window {
        Window {
            column: 0,
            row: 0,
            width: pixmap.width(),
            height: pixmap.height(),
        }
    }

    /// Appends the rows of the picture that it shows, the top one first.
    pub fn write(self, pixmap: &Pixmap, answer: &mut Transcript) -> Answered {
        if self.column.saturating_add(self.width) > pixmap.width() {
            return Err(Unanswered::BadWords);
        }
        for down in 0..self.height {
            match self.bytes_of_row(down, pixmap) {
                Some(bytes) => write_row(bytes, answer),
                None => return Err(Unanswered::BadWords),
            }
        }
        Ok(())
    }

    /// The bytes of the row that has this many rows of the window above it.
    fn bytes_of_row(self, down: u32, pixmap: &Pixmap) -> Option<&[u8]> {
        let up = self.row.saturating_add(self.height).saturating_sub(down);
        let above = pixmap.height().checked_sub(up)?;
        let pixels = (above as usize)
            .saturating_mul(pixmap.width() as usize)
            .saturating_add(self.column as usize);
        let rest = pixmap.bytes().get(pixels.saturating_mul(3)..)?;
        rest.get(..self.width as usize * 3)
    }
}

/// Appends a row, a letter a pixel.
fn write_row(bytes: &[u8], answer: &mut Transcript) {
    for pixel in bytes.chunks(3) {
        write_pixel(pixel, answer);
    }
    answer.line("");
}

fn write_pixel(pixel: &[u8], answer: &mut Transcript) {
    match pixel {
        [r, g, b] => {
            let color = Color {
                r: *r,
                g: *g,
                b: *b,
            };
            answer.text(letter_of(color));
        }
        _ => {}
    }
}
