// What is said, but for the words of fields, by name: these are read aloud on the telephone, so a thing has the same words in every line.

pub const COMMA: &[u8] = b", ";

pub const COLON: &[u8] = b": ";

pub const BLANKS: &[u8] = b"  ";

pub const LINE_END: &[u8] = b"\n";

pub const DOTS: &[u8] = b"..  ";

pub const ESC: &[u8] = b"ESC ";

pub const CR: &[u8] = b" CR";

pub const LF: &[u8] = b" LF";

// What stands at a place.

pub const TEXT: &[u8] = b"text     ";

pub const SKIPPED: &[u8] = b"skipped  ";

pub const FRAME: &[u8] = b"frame    ";

pub const TAIL: &[u8] = b"tail     ";

pub const END: &[u8] = b"end      ";

// What became of it.

pub const NOTHING_DONE: &[u8] = b"nothing done";

pub const ABANDONED_AT: &[u8] = b"abandoned by the ESC at ";

pub const STILL_OPEN: &[u8] = b"still open";

pub const BAD: &[u8] = b"bad";

pub const PASSED_OVER: &[u8] = b"passed over: ";

pub const REFUSED: &[u8] = b"refused by the state it is in";

pub const ANSWERED_MARK: &[u8] = b": answered ?";

pub const NOTHING_DONE_YET: &[u8] = b": nothing done yet";

pub const ANSWERED: &[u8] = b": answered ";

pub const MORE_THAN: &[u8] = b" bytes, more than ";

// Rows and columns.

pub const COLUMN: &[u8] = b"column ";

pub const COLUMNS: &[u8] = b"columns ";

pub const TO: &[u8] = b" to ";

pub const ROW: &[u8] = b"row ";

pub const LARGE_LINE: &[u8] = b"large line";

pub const IS_FULL: &[u8] = b" is full";

pub const CODE_DROPPED: &[u8] = b" code dropped";

pub const CODES_DROPPED: &[u8] = b" codes dropped";

pub const CLEARED: &[u8] = b" cleared";

pub const FROM_COLUMN: &[u8] = b" from column ";

pub const ALL_CLEARED: &[u8] = b"all text cleared, ";

pub const PICTURE_ROW: &[u8] = b"picture row ";

// What an obeyed frame did.

pub const CHANGED: &[u8] = b" changed";

pub const NOTHING_CHANGED: &[u8] = b": nothing changed";

pub const CONTRAST_ASKED: &[u8] = b"contrast asked";

pub const HOOK_ASKED: &[u8] = b"hook asked";

pub const VERSION_ASKED: &[u8] = b"version asked";

pub const ASKED: &[u8] = b"asked";

pub const RESTART: &[u8] = b"restart to power-on, stored numbers kept";

pub const DONE: &[u8] = b"obeyed";

// Fields and what their numbers take.

pub const OPENING: &[u8] = b"[";

pub const CLOSING: &[u8] = b"]";

pub const IN_MODE: &[u8] = b" in mode ";

pub const NO_ROW: &[u8] = b"no row can be named";

pub const NO_MARK: &[u8] = b"inverse mark takes only 0";

// The line that sums up.

pub const TEXT_BYTES: &[u8] = b"text bytes ";

pub const SKIPPED_BYTES: &[u8] = b", skipped bytes ";

pub const CLOSED_FRAMES: &[u8] = b", closed frames ";

pub const OF_THESE_OBEYED: &[u8] = b" (obeyed ";

pub const OF_THESE_PASSED_OVER: &[u8] = b", passed over ";

pub const OF_THESE_REFUSED: &[u8] = b", refused ";

pub const OF_THESE_BAD: &[u8] = b", bad ";

pub const ABANDONED_FRAMES: &[u8] = b"), abandoned frames ";

pub const ANSWERS: &[u8] = b", answers ";

pub const TAIL_AT: &[u8] = b", tail at ";

pub const NO_TAIL: &[u8] = b", no tail";
