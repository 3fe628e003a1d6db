// Who owns each display row and each column of it. The table of specs/Table.antt is the definition; the code has the same letters.
#![tactic(auto)]

ghost use Rattle.std.specs.Prelude.{◌≡◌, ◌≤◌, ◌<◌};
ghost use Rattle.seen_owners.specs.Table.{letter_in, mode_line, line_of, letter_at, by_letter, owner_of_row, is_rocker, rocker_or, owner_on};

use record::{LARGE, LAST_ROW, Screen};

// The last column of a display row.
pub const LAST_COLUMN: u8 = 95;

// Where the rocker panel begins, and the right label behind it.
pub const ROCKER: u8 = 42;

pub const RIGHT_LABEL: u8 = 54;

// The overlays are 11 to 18; the line of 11 is line 3, and an overlay that there is not has the last one.
const FIRST_OVERLAY: u8 = 11;

const LAST_OVERLAY: u8 = 18;

const NO_LINE: usize = 11;

// A letter for each of the display rows 0 to 6: B the icon bar; 0 to 4 that text row; S the small codes of the large line, U and L the
// upper and the lower half of its big ones; P the picture row of the display row's number; K the soft keys; R the picture row with the
// rocker panel in it; T what the text mode shows there with no overlay; - nothing.
const TABLE: [[u8; 7]; 12] = [
    *b"B0123K-", // no overlay, modes 0 and 1
    *b"01234K-", // no overlay, modes 5 and 6
    *b"BSUL-K-", // no overlay, mode 10
    *b"BPPPPK-", // 11
    *b"PPPPPK-", // 12
    *b"PPPPPPP", // 13
    *b"BPPPPRP", // 14
    *b"PPPPPRP", // 15
    *b"BPPTTK-", // 16
    *b"BTTPPK-", // 17
    *b"BTTTTRP", // 18
    *b"-------", // any other
];

// Who owns a display row or a place of it. The number is the text row or the picture row, and of the big codes the half that is
// shown: 0 the upper, 1 the lower. PictureWithRocker has a row alone: each of its places belongs to one of the two.
#[derive(Clone, Copy)]
pub enum Owner {
    Nothing,
    IconBar,
    TextRow(u8),
    PictureRow(u8),
    SoftKeys,
    SmallLine,
    BigLine(u8),
    PictureWithRocker(u8),
}

#[tactic(auto, unfolding(crate::specs::Table::mode_line))]
fn mode_line(mode: u8) -> usize
    ensures { result ≡ mode_line mode }
{
    match mode {
        0 | 1 => 0,
        LARGE => 2,
        _ => 1,
    }
}

#[tactic(auto, unfolding(crate::specs::Table::line_of))]
fn line_of(overlay: u8, mode: u8) -> usize
    ensures { result ≡ line_of overlay mode }
{
    match overlay {
        0 => mode_line(mode),
        FIRST_OVERLAY..=LAST_OVERLAY => overlay as usize - 8,
        _ => NO_LINE,
    }
}

#[tactic(auto, unfolding(crate::specs::Table::letter_in))]
fn letter_in(line: usize, row: u8) -> u8
    requires { (line < 12) × (row ≤ 6) }
    ensures { result ≡ letter_in line row }
{
    TABLE[line][row as usize]
}

// The letter of a display row, the text mode's own where the overlay leaves the row to it.
#[tactic(auto, unfolding(crate::specs::Table::letter_at))]
fn letter_at(overlay: u8, mode: u8, row: u8) -> u8
    requires { row ≤ 6 }
    ensures { result ≡ letter_at overlay mode row }
{
    match letter_in(line_of(overlay, mode), row) {
        b'T' => letter_in(mode_line(mode), row),
        letter => letter,
    }
}

#[tactic(auto, unfolding(crate::specs::Table::by_letter))]
fn by_letter(letter: u8, row: u8) -> Owner
    ensures { result ≡ by_letter letter row }
{
    match letter {
        b'0'..=b'4' => Owner::TextRow(letter - b'0'),
        b'B' => Owner::IconBar,
        b'S' => Owner::SmallLine,
        b'U' => Owner::BigLine(0),
        b'L' => Owner::BigLine(1),
        b'P' => Owner::PictureRow(row),
        b'K' => Owner::SoftKeys,
        b'R' => Owner::PictureWithRocker(row),
        _ => Owner::Nothing,
    }
}

// The owner of a display row. With the display off, and above the last row, there is none.
#[tactic(auto, unfolding(crate::specs::Table::owner_of_row))]
pub fn owner_of_row(s: Screen, row: u8) -> Owner
    ensures same { result ≡ owner_of_row s row }
{
    if s.display && row <= LAST_ROW {
        by_letter(letter_at(s.overlay, s.mode, row), row)
    } else {
        Owner::Nothing
    }
}

// A column of a picture row with the rocker panel in it.
fn rocker_or(n: u8, column: u8) -> Owner
    ensures { result ≡ rocker_or n column }
{
    if (ROCKER..RIGHT_LABEL).contains(&column) {
        Owner::SoftKeys
    } else {
        Owner::PictureRow(n)
    }
}

// The owner of a column of a display row: the row's own, but for a picture with the rocker in it.
pub fn owner_of(s: Screen, row: u8, column: u8) -> Owner
    ensures same { result ≡ owner_on s row column }
{
    match owner_of_row(s, row) {
        Owner::PictureWithRocker(n) => rocker_or(n, column),
        owner => owner,
    }
}
