// What became of the text: codes that were stored in a line, and lines that were cleared.
use crate::part_line::{say, say_columns, say_comma, say_count, say_number};
use crate::words;
use program::Host;
use record::{LARGE, Screen, Text};

// The text rows, of so many codes each. Behind them stands the large line, which is no row.
const ROW: usize = 16;

const ROWS_END: usize = 80;

// Which row the cursor stands in; none in the large line.
fn row_of(screen: &Screen) -> Option<u8> {
    (screen.mode != LARGE).then_some(screen.row)
}

fn say_line(host: &Host, row: Option<u8>) {
    match row {
        Some(row) => say_count(host, words::ROW, row as u64),
        None => say(host, words::LARGE_LINE),
    }
}

// Stored codes.

fn say_dropped(host: &Host, n: u64) {
    say_number(host, n);
    if n == 1 {
        say(host, words::CODE_DROPPED);
    } else {
        say(host, words::CODES_DROPPED);
    }
}

// Of so many codes, which began at the cursor and ended before a column, those that found no place were dropped.
pub fn say_stored(host: &Host, was: &Screen, is: &Screen, length: u64) {
    let column = was.column as u64;
    let end = is.column as u64;
    say_line(host, row_of(was));
    if end <= column {
        say(host, words::IS_FULL);
        say(host, words::COLON);
        say_dropped(host, length);
        return;
    }
    say(host, words::COMMA);
    say_columns(host, column, end - 1);
    let stored = end - column;
    if stored < length {
        say(host, words::COMMA);
        say_dropped(host, length - stored);
    }
}

// Cleared lines.

// A line, if it has changed. Says whether any line has been said by then.
fn say_if_cleared(host: &Host, row: Option<u8>, before: &[u8], after: &[u8], said: bool) -> bool {
    if before == after {
        return said;
    }
    say_comma(host, said);
    say_line(host, row);
    say(host, words::CLEARED);
    true
}

// The lines that have changed, and whether there are any.
pub fn say_cleared_lines(host: &Host, before: &Text, after: &Text) -> bool {
    let rows_before = before[..ROWS_END].chunks_exact(ROW);
    let rows_after = after[..ROWS_END].chunks_exact(ROW);
    let mut said = false;
    for (row, (was, is)) in (0..).zip(rows_before.zip(rows_after)) {
        said = say_if_cleared(host, Some(row), was, is, said);
    }
    say_if_cleared(host, None, &before[ROWS_END..], &after[ROWS_END..], said)
}

// The cursor's line, from the cursor on; and whether that changed it. At the line's end nothing is left to clear.
pub fn say_cleared_line(host: &Host, before: &Text, after: &Text, screen: &Screen) -> bool {
    say_line(host, row_of(screen));
    if record::row_end(screen.mode) <= screen.column {
        say(host, words::IS_FULL);
        return false;
    }
    say(host, words::CLEARED);
    if screen.column > 0 {
        say_count(host, words::FROM_COLUMN, screen.column as u64);
    }
    before != after
}
