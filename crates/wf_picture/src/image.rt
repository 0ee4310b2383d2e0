//! Pictures as files.
ghost use Rattle.std.specs.Prelude.{◌≡◌, ◌≤◌, ◌<◌, ◌+◌, ◌-◌, ◌*◌, ◌++◌, ◌^◌, ℤ, take, drop, IfOk, OnOk};
ghost use Rattle.wf_def.specs.declared.color.Color.{Color as Pixel};
ghost use Rattle.wf_paint.specs.Pixmap.{IsPicture, IsPixmap};
ghost use Rattle.wf_picture.specs.Image.{header, image, pixel_bytes, row_bytes};
ghost use Rattle.wf_picture.specs.Picture.{crop};

use itoa::Buffer;
use std::alloc::{AllocError, Global};
use wf_geometry::Corner;
use wf_paint::Pixmap;

/// The file of a part of a picture, from its lower left corner: a header, then three bytes a pixel
/// (Netpbm, PPM, raw form).
#[tactic(auto, unfolding(crate::specs::Image::image))]
pub(crate) fn image(
    alloc: Global,
    pixmap: &Pixmap,
    corner: Corner,
    width: u32,
    height: u32,
) -> Result<Vec<u8>, AllocError>
    requires columns { corner.column + width ≤ pixmap.now.width }
    requires rows { corner.row + height ≤ pixmap.now.height }
    ensures { IfOk result (λ file. (whole : ℤ → ℤ → Pixel) → IsPicture pixmap.now.width
        pixmap.now.height whole pixmap.now → file.items ≡ image width height (crop corner whole)) }
{
    let size = header_size(width, height) as usize + pixels_size(pixmap, width, height);
    let mut file = Vec::with_capacity(alloc, size)?;
    push_header(&mut file, width, height)?;
    push_rows(&mut file, pixmap, corner, width, height)?;
    Ok(file)
}

/// The file of a whole picture. One that was painted with room for the header isn't copied.
#[tactic(auto, unfolding(crate::specs::Image::image))]
pub(crate) fn file(alloc: Global, pixmap: Pixmap) -> Result<Vec<u8>, AllocError>
    ensures { IfOk result (λ file. (whole : ℤ → ℤ → Pixel) →
        IsPicture pixmap.width pixmap.height whole pixmap →
        file.items ≡ image pixmap.width pixmap.height whole) }
{
    let (width, height) = (pixmap.width(), pixmap.height());
    let mut head = Vec::with_capacity(alloc, header_size(width, height) as usize)?;
    push_header(&mut head, width, height)?;
    pixmap.into_file(alloc, &head)
}

/// How many bytes the pixels of a part of the picture of this size have.
fn pixels_size(pixmap: &Pixmap, width: u32, height: u32) -> usize
    requires columns { width ≤ pixmap.now.width }
    requires rows { height ≤ pixmap.now.height }
    ensures { result ≤ 2 ^ 32 }
{
    // `area` ensures that the picture's sides are within their limit.
    let _ = pixmap.area();
    3 * (width * height) as usize
}

/// How many bytes the header of a picture of this size has.
pub(crate) fn header_size(width: u32, height: u32) -> u8 {
    "P6\n \n255\n".len() as u8 + digits(width) + digits(height)
}

/// How many digits a side of a picture has.
fn digits(side: u32) -> u8
    ensures { result ≤ 4 }
{
    match side {
        0..=9 => 1,
        10..=99 => 2,
        100..=999 => 3,
        _ => 4,
    }
}

/// Adds the header: the form of the file, its width and height in pixels, and the greatest value of
/// a byte.
#[tactic(auto, unfolding(crate::specs::Image::header))]
fn push_header(file: &mut Vec<u8>, width: u32, height: u32) -> Result<(), AllocError>
    ensures { OnOk result (file.new.items ≡ file.old.items ++ header width height) }
{
    let mut digits = Buffer::new();
    file.extend_from_slice(b"P6\n")?;
    file.extend_from_slice(digits.format(width).as_bytes())?;
    file.extend_from_slice(b" ")?;
    file.extend_from_slice(digits.format(height).as_bytes())?;
    file.extend_from_slice(b"\n255\n")
}

/// Adds the rows of the part of the picture that begins at the corner, the top one first.
#[tactic(auto, unfolding(crate::specs::Image::pixel_bytes))]
fn push_rows(
    file: &mut Vec<u8>,
    pixmap: &Pixmap,
    corner: Corner,
    width: u32,
    height: u32,
) -> Result<(), AllocError>
    requires columns { corner.column + width ≤ pixmap.now.width }
    requires rows { corner.row + height ≤ pixmap.now.height }
    ensures { OnOk result
        ((whole : ℤ → ℤ → Pixel) → IsPicture pixmap.now.width pixmap.now.height whole pixmap.now →
        file.new.items ≡ file.old.items ++ pixel_bytes width height (crop corner whole)) }
{
    for row in (0..height).rev() {
        push_row(file, pixmap, corner, width, row)?;
    }
    Ok(())
}

/// Adds a row of that part. Rows count upward from the corner's.
fn push_row(
    file: &mut Vec<u8>,
    pixmap: &Pixmap,
    corner: Corner,
    width: u32,
    row: u32,
) -> Result<(), AllocError>
    requires columns { corner.column + width ≤ pixmap.now.width }
    requires row { corner.row + row < pixmap.now.height }
    ensures { OnOk result
        ((whole : ℤ → ℤ → Pixel) → IsPicture pixmap.now.width pixmap.now.height whole pixmap.now →
        file.new.items ≡ file.old.items ++ row_bytes width (crop corner whole) row) }
{
    let first = first_of(pixmap, corner, row);
    file.extend_from_slice(pixels_from(pixmap, first, width))?;
    Ok(())
}

/// The index of the row's first pixel, counted row by row from the picture's upper left.
fn first_of(pixmap: &Pixmap, corner: Corner, row: u32) -> usize
    requires column { corner.column ≤ pixmap.now.width }
    requires row { corner.row + row < pixmap.now.height }
    ensures { result
        ≡ (pixmap.now.height - 1 - (corner.row + row)) * pixmap.now.width + corner.column }
{
    let above = pixmap.height() - 1 - (corner.row + row);
    above as usize * pixmap.width() as usize + corner.column as usize
}

/// The bytes of `count` pixels from index `first` on.
fn pixels_from(pixmap: &Pixmap, first: usize, count: u32) -> &[u8]
    requires { first + count ≤ pixmap.now.width * pixmap.now.height }
    ensures value { result.now ≡ take (3 * count) (drop (3 * first) pixmap.now.bytes) }
    ensures within { IsPixmap pixmap.now }
{
    let bytes = pixmap.bytes();
    &bytes[3 * first..3 * (first + count as usize)]
}
