// Reads a stream from a file or from standard input, from the power-on record, and draws what a person then sees, in a terminal
// that takes UTF-8:
//
//   ./run show_screen examples/picture.stream
//
// An icon that flashes is drawn lit, and with --pause as it is in the pause. With --sister the power-on record is that of the
// sister handset, which reads her own frames.
//
// Each of the seven display rows is asked for by the proved row question and drawn as two lines of 48 places in a frame, 50
// columns in all. A place is two dots wide and four high, so a picture row is drawn dot by dot in braille signs, and a code of
// a text row, six dots wide, has three places: of an inverse row the code stands between square brackets. Codes outside 0x20 to
// 0x7E are drawn as '.'. The icon bar is drawn in words: signal strength, missed calls, roaming, SMS, volume. The soft keys' row
// has a label at each side and the rocker between, and so has a picture that leaves the rocker its columns. A big code is six
// places wide and two rows high: a digit in strokes, any other as two by two of its sign.
// With the display off the frame is empty. The cursor is no part of what is seen. Of an input that fails nothing is drawn.
#![tactic(auto)]

use program::{Host, Input};
use record::{Label, Record};
use seen::{Bar, Labels, Owner, Phase, SmsPanel, VolumePanel};
use seen_owners::{RIGHT_LABEL, ROCKER};

const PLACES: usize = 48;

// The strokes of a digit, as on a meter.
const TOP: u8 = 1;

const UPPER_LEFT: u8 = 2;

const UPPER_RIGHT: u8 = 4;

const MIDDLE: u8 = 8;

const LOWER_LEFT: u8 = 16;

const LOWER_RIGHT: u8 = 32;

const BOTTOM: u8 = 64;

fn say(host: &Host, words: &[u8]) {
    program::write(host, b"show_screen", words);
}

// Either side of the frame.
fn side(host: &Host) {
    say(host, b"\xE2\x94\x82");
}

fn end_of_line(host: &Host) {
    say(host, b"\xE2\x94\x82\n");
}

fn repeated(host: &Host, sign: &[u8], times: usize) {
    for _ in 0..times {
        say(host, sign);
    }
}

fn blanks(host: &Host, n: usize) {
    repeated(host, b" ", n);
}

fn empty_line(host: &Host) {
    side(host);
    blanks(host, PLACES);
    end_of_line(host);
}

// The line between two corners of the frame.
fn edge(host: &Host) {
    repeated(host, b"\xE2\x94\x80", PLACES);
}

fn top_edge(host: &Host) {
    say(host, b"\xE2\x95\xAD");
    edge(host);
    say(host, b"\xE2\x95\xAE\n");
}

fn bottom_edge(host: &Host) {
    say(host, b"\xE2\x95\xB0");
    edge(host);
    say(host, b"\xE2\x95\xAF\n");
}

// Codes, three places each: the code and what stands at its sides.
fn say_codes(host: &Host, codes: &[u8], left: u8, right: u8) {
    for code in codes {
        say(host, &[left, program::printable(*code), right]);
    }
}

fn draw_text(host: &Host, codes: &[u8; 16], inverse: bool) {
    side(host);
    if inverse {
        say_codes(host, codes, b'[', b']');
    } else {
        say_codes(host, codes, b' ', b' ');
    }
    end_of_line(host);
    empty_line(host);
}

// A number of one or two digits in two places.
fn say_number(host: &Host, n: u8) {
    if n < 10 {
        say(host, b" ");
    }
    program::write_number(host, b"show_screen", u64::from(n));
}

// Strength 1 is the icon without bars, 6 that with five.
fn say_signal(host: &Host, f: u8) {
    match f {
        1 => say(host, b" Y      "),
        2 => say(host, b" Y\xE2\x96\x81     "),
        3 => say(host, b" Y\xE2\x96\x81\xE2\x96\x82    "),
        4 => say(host, b" Y\xE2\x96\x81\xE2\x96\x82\xE2\x96\x84   "),
        5 => say(
            host,
            b" Y\xE2\x96\x81\xE2\x96\x82\xE2\x96\x84\xE2\x96\x86  ",
        ),
        6 => say(
            host,
            b" Y\xE2\x96\x81\xE2\x96\x82\xE2\x96\x84\xE2\x96\x86\xE2\x96\x88 ",
        ),
        _ => blanks(host, 8),
    }
}

fn say_missed(host: &Host, p: u8) {
    if p == 0 {
        blanks(host, 10);
    } else {
        say_level(host, b"missed ", p);
    }
}

fn say_roaming(host: &Host, r: u8) {
    if r == 0 {
        blanks(host, 6);
    } else {
        say(host, b"roam  ");
    }
}

fn say_sms(host: &Host, panel: SmsPanel) {
    match panel {
        SmsPanel::Nothing => blanks(host, 11),
        SmsPanel::Read => say(host, b"SMS read   "),
        SmsPanel::Unread => say(host, b"SMS unread "),
    }
}

fn say_level(host: &Host, words: &[u8], level: u8) {
    say(host, words);
    say_number(host, level);
    say(host, b" ");
}

fn say_volume(host: &Host, panel: VolumePanel) {
    match panel {
        VolumePanel::Nothing => blanks(host, 13),
        VolumePanel::Mute => say(host, b"        mute "),
        VolumePanel::Private(level) => say_level(host, b"  private ", level),
        VolumePanel::Handsfree(level) => say_level(host, b"handsfree ", level),
    }
}

fn draw_bar(host: &Host, bar: Bar) {
    side(host);
    say_signal(host, bar.f);
    say_missed(host, bar.p);
    say_roaming(host, bar.r);
    say_sms(host, bar.sms);
    say_volume(host, bar.volume);
    end_of_line(host);
    empty_line(host);
}

// A label in the room for seven codes.
fn say_label(host: &Host, label: &Label) {
    let n = label.codes.len().min(label.len as usize);
    say_codes(host, &label.codes[..n], b' ', b' ');
    blanks(host, 3 * (label.codes.len() - n));
}

// 1 is down, 2 up, 3 both.
fn say_rocker(host: &Host, w: u8) {
    match w {
        1 => say(host, b"   \xE2\x96\xBC  "),
        2 => say(host, b"  \xE2\x96\xB2   "),
        3 => say(host, b"  \xE2\x96\xB2\xE2\x96\xBC  "),
        _ => blanks(host, 6),
    }
}

fn draw_labels(host: &Host, labels: &Labels) {
    side(host);
    say_label(host, &labels.left);
    say_rocker(host, labels.w);
    say_label(host, &labels.right);
    end_of_line(host);
    empty_line(host);
}

// The low four dots of two columns as one braille sign, U+2800 and up. The sign counts the upper three dots of its left
// column, then those of its right one, then the lowest of each.
fn say_dots(host: &Host, left: u8, right: u8) {
    let upper = left % 8 + right % 8 * 8;
    let lowest = left / 8 % 2 + right / 8 % 2 * 2;
    say(host, &[0xE2, 0xA0 + lowest, 0x80 + upper]);
}

// The upper four dots of a column are its low four bits.
fn half(column: u8, lower: bool) -> u8 {
    if lower { column / 16 } else { column }
}

// One of the two lines of some columns of a picture row, two of them to a place.
fn dots(host: &Host, columns: &[u8], lower: bool) {
    for [left, right] in columns.as_chunks::<2>().0 {
        say_dots(host, half(*left, lower), half(*right, lower));
    }
}

fn dots_line(host: &Host, columns: &[u8; 96], lower: bool) {
    side(host);
    dots(host, columns, lower);
    end_of_line(host);
}

fn draw_picture(host: &Host, columns: &[u8; 96]) {
    dots_line(host, columns, false);
    dots_line(host, columns, true);
}

// The same around the rocker's columns; it stands in the first line.
fn dots_around(host: &Host, columns: &[u8; 96], w: u8, lower: bool) {
    side(host);
    dots(host, &columns[..ROCKER as usize], lower);
    say_rocker(host, w);
    dots(host, &columns[RIGHT_LABEL as usize..], lower);
    end_of_line(host);
}

fn draw_picture_with_rocker(host: &Host, columns: &[u8; 96], w: u8) {
    dots_around(host, columns, w, false);
    dots_around(host, columns, 0, true);
}

// The strokes of a code, if it is a digit.
fn strokes_of(code: u8) -> Option<u8> {
    Some(match code {
        b'0' => TOP | UPPER_LEFT | UPPER_RIGHT | LOWER_LEFT | LOWER_RIGHT | BOTTOM,
        b'1' => UPPER_RIGHT | LOWER_RIGHT,
        b'2' => TOP | UPPER_RIGHT | MIDDLE | LOWER_LEFT | BOTTOM,
        b'3' => TOP | UPPER_RIGHT | MIDDLE | LOWER_RIGHT | BOTTOM,
        b'4' => UPPER_LEFT | UPPER_RIGHT | MIDDLE | LOWER_RIGHT,
        b'5' => TOP | UPPER_LEFT | MIDDLE | LOWER_RIGHT | BOTTOM,
        b'6' => TOP | UPPER_LEFT | MIDDLE | LOWER_LEFT | LOWER_RIGHT | BOTTOM,
        b'7' => TOP | UPPER_RIGHT | LOWER_RIGHT,
        b'8' => TOP | UPPER_LEFT | UPPER_RIGHT | MIDDLE | LOWER_LEFT | LOWER_RIGHT | BOTTOM,
        b'9' => TOP | UPPER_LEFT | UPPER_RIGHT | MIDDLE | LOWER_RIGHT | BOTTOM,
        _ => return None,
    })
}

// Three of the strokes of a digit, where it has them: left, level and right. No stroke is 0.
fn say_strokes(host: &Host, strokes: u8, [left, level, right]: [u8; 3]) {
    say(host, if strokes & left == 0 { b" " } else { b"|" });
    say(host, if strokes & level == 0 { b"   " } else { b"___" });
    say(host, if strokes & right == 0 { b" " } else { b"|" });
    say(host, b" ");
}

// Of the four lines of a big digit, from the top.
fn say_digit(host: &Host, strokes: u8, line: u8) {
    let three = match line {
        0 => [0, TOP, 0],
        1 => [UPPER_LEFT, MIDDLE, UPPER_RIGHT],
        2 => [LOWER_LEFT, 0, LOWER_RIGHT],
        _ => [LOWER_LEFT, BOTTOM, LOWER_RIGHT],
    };
    say_strokes(host, strokes, three);
}

// Of the four lines of another code.
fn say_sign(host: &Host, code: u8, line: u8) {
    let sign = program::printable(code);
    match line {
        1 | 2 => say(host, &[b' ', b' ', sign, sign, b' ', b' ']),
        _ => blanks(host, 6),
    }
}

fn say_big(host: &Host, code: u8, line: u8) {
    match strokes_of(code) {
        Some(strokes) => say_digit(host, strokes, line),
        None => say_sign(host, code, line),
    }
}

fn big_line(host: &Host, codes: &[u8; 16], line: u8) {
    side(host);
    for code in &codes[..8] {
        say_big(host, *code, line);
    }
    end_of_line(host);
}

// A half of the big codes is two of their four lines.
fn draw_big(host: &Host, codes: &[u8; 16], half: u8) {
    let first = if half == 0 { 0 } else { 2 };
    big_line(host, codes, first);
    big_line(host, codes, first + 1);
}

fn draw_nothing(host: &Host) {
    empty_line(host);
    empty_line(host);
}

fn draw_row(host: &Host, r: Record, row: u8, phase: Phase) {
    // A row that is refused has nothing to show; rows 0 to 6 of a record in range never are.
    let Ok(seen) = seen::row_seen(r, row, phase) else {
        draw_nothing(host);
        return;
    };
    match seen.owner {
        Owner::Nothing => draw_nothing(host),
        Owner::IconBar => draw_bar(host, seen.bar),
        Owner::TextRow(_) | Owner::SmallLine => draw_text(host, &seen.codes, seen.inverse),
        Owner::PictureRow(_) => draw_picture(host, &seen.columns),
        Owner::SoftKeys => draw_labels(host, &seen.labels),
        Owner::BigLine(half) => draw_big(host, &seen.codes, half),
        Owner::PictureWithRocker(_) => {
            draw_picture_with_rocker(host, &seen.columns, seen.labels.w)
        }
    }
}

fn draw(host: &Host, r: Record, phase: Phase) {
    top_edge(host);
    for row in 0..7 {
        draw_row(host, r, row, phase);
    }
    bottom_edge(host);
}

fn phase_given(host: &Host) -> Phase {
    if program::is_given(host, b"--pause\n") {
        Phase::Pause
    } else {
        Phase::Lit
    }
}

// The record's own edition decides which frames are read.
fn power_on_given(host: &Host) -> Record {
    if program::is_given(host, b"--sister\n") {
        Record::sister_power_on()
    } else {
        Record::power_on()
    }
}

fn accepted(host: &Host) -> bool {
    program::accepts(
        host,
        b"show_screen",
        b"usage: ./run show_screen [--pause] [--sister] [FILE]\n\
        Reads a stream from FILE, or from standard input without one, and draws what a person then sees.\n\
        --pause draws a flashing icon in its pause; without it the icon is lit.\n\
        --sister reads the frames of the sister handset (AN1900); without it those of AN1901.\n",
        b"--pause\n--sister\n",
        true,
    )
}

fn show(host: &Host, input: &mut Input) {
    let heard = stream_input::hear(input, power_on_given(host));
    if heard.failed {
        program::complain_of(host, b"show_screen", input);
        return;
    }
    draw(host, heard.record, phase_given(host));
}

fn main(rt: HostRuntime) {
    let host = Host::new(rt);
    if accepted(&host) {
        if let Some(mut input) = program::open_input(&host, b"show_screen") {
            show(&host, &mut input);
        }
    }
}
