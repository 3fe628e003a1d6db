// Whether a label and a picture row are fit to be written: document 01's number 2, in specs/Fitting.antt.
#![tactic(auto)]

ghost use Rattle.std.specs.Prelude.{◌≡◌};
ghost use Rattle.writer_ranges.specs.Fitting.{is_label, is_row};

use lists::BLANK;
use picture::MOST_COLUMNS;
use record::{LAST_ROW, LONGEST_LABEL, LOW_COLUMN_END};

#[tactic(auto, unfolding(crate::specs::Fitting::is_label))]
pub fn label_in_range(codes: &[u8]) -> bool
    ensures same { result ≡ is_label codes.now }
{
    codes.len() <= LONGEST_LABEL && codes.iter().all(|code| BLANK <= *code)
}

// The columns are looked at only in row 6, and only if they are at most 96.
#[tactic(auto, unfolding(crate::specs::Fitting::is_row))]
pub fn row_in_range(row: u8, columns: &[u8]) -> bool
    ensures same { result ≡ is_row row columns.now }
{
    let n = columns.len();
    1 <= n
        && n <= MOST_COLUMNS
        && row <= LAST_ROW
        && (row < LAST_ROW || columns.iter().all(|column| *column < LOW_COLUMN_END))
}
