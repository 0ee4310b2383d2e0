//! Glyphs: how each character looks.
ghost use Rattle.std.specs.Prelude.{◌≡◌, ◌==◌};
ghost use Rattle.std.specs.List.{find};
ghost use Rattle.std.specs.Option.{option_copied};
ghost use Rattle.wf_label.specs.Glyph.{glyph, glyph_entry, rows};

use crate::limits::GLYPH_HEIGHT;

/// The characters that have a glyph, each with five octal digits: the rows from the top, of each
/// row the highest bit on the left.
const GLYPHS: [(char, u16); 39] = [
    ('A', 0o25755),
    ('B', 0o65656),
    ('C', 0o34443),
    ('D', 0o65556),
    ('E', 0o74647),
    ('F', 0o74644),
    ('G', 0o34553),
    ('H', 0o55755),
    ('I', 0o72227),
    ('J', 0o11152),
    ('K', 0o55655),
    ('L', 0o44447),
    ('M', 0o57755),
    ('N', 0o65555),
    ('O', 0o25552),
    ('P', 0o65644),
    ('Q', 0o25563),
    ('R', 0o65655),
    ('S', 0o34216),
    ('T', 0o72222),
    ('U', 0o55557),
    ('V', 0o55522),
    ('W', 0o55775),
    ('X', 0o55255),
    ('Y', 0o55222),
    ('Z', 0o71247),
    ('0', 0o75557),
    ('1', 0o26227),
    ('2', 0o61247),
    ('3', 0o61216),
    ('4', 0o55711),
    ('5', 0o74616),
    ('6', 0o34757),
    ('7', 0o71244),
    ('8', 0o75757),
    ('9', 0o75716),
    ('-', 0o00700),
    ('.', 0o00002),
    (' ', 0o00000),
];

/// How a character without a glyph looks: each bit is set.
const FILLED: u16 = 0o77777;

/// The five rows of a character's glyph from the top, each three bits, the highest on the left. `a`
/// to `z` look as `A` to `Z`; a character without a glyph is filled. It allocates nothing.
#[tactic(auto, unfolding(crate::specs::Glyph::glyph))]
pub fn glyph(c: char) -> [u8; GLYPH_HEIGHT]
    ensures { result ≡ glyph c }
{
    match glyph_entry(c.to_ascii_uppercase()) {
        Some((_, digits)) => rows(digits),
        None => rows(FILLED),
    }
}

/// The table's entry of a character, letters being capitals.
#[tactic(auto, unfolding(crate::specs::Glyph::glyph_entry))]
fn glyph_entry(c: char) -> Option<(char, u16)>
    ensures { result ≡ glyph_entry c }
{
    let glyphs: [(char, u16); 39] = GLYPHS;
    entry_among(&glyphs, c).copied()
}

/// The first entry of a character.
fn entry_among(glyphs: &[(char, u16)], c: char) -> Option<&(char, u16)>
    ensures { option_copied result ≡ find (λ entry. entry.0 == c) glyphs.now }
{
    glyphs.iter().find(|entry| entry.0 == c)
}

/// The rows that five octal digits stand for.
#[tactic(auto, unfolding(crate::specs::Glyph::rows))]
fn rows(digits: u16) -> [u8; GLYPH_HEIGHT]
    ensures { result ≡ rows digits }
{
    [
        (digits / 0o10000 % 8) as u8,
        (digits / 0o1000 % 8) as u8,
        (digits / 0o100 % 8) as u8,
        (digits / 0o10 % 8) as u8,
        (digits % 8) as u8,
    ]
}
