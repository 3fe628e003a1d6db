// What the sister handset answers: '?' CR LF to a bad frame, and to a question ESC, the question's letters, a colon, a blank, the value,
// CR LF. An answer is written whole or not at all. specs/Told.antt has the bytes.
#![tactic(auto)]

ghost use Rattle.std.specs.Prelude.{◌≡◌, cond, [], ◌∷◌, ◌≤◌, length};
ghost use Rattle.numeral.specs.Numeral.{decimal};
ghost use Rattle.line.specs.Lines.{most_codes, held, empty_line, added};
ghost use Rattle.line.specs.Laws.{Added};
ghost use Rattle.answer.specs.Answers.{count_after, buffer_after};
ghost use Rattle.sister_answer.specs.Told.{opening, answer, pair, told_bytes, is_silence};

use line::{Line, add, add_number, copy, empty};
use lists::ESCAPE;

// Each with the frame that asks for it.
#[derive(Clone, Copy)]
pub enum Told {
    // any other good frame
    Silence,
    // a bad frame
    Mark,
    // &V?
    Version,
    // &H?: row, column
    Place(u8, u8),
    // IDM?: the overlay's number if there is one, else the text mode's
    Mode(u8),
    // IE?: the light by her own number, the duration
    Light(u8, u8),
    // IA?
    Contrast(u8),
    // IN?
    Brightness(u8),
    // IV?: the speaker's volume
    Speaker(u8),
    // IT?: Time1, Time2
    Times(u8, u8),
    // KH?: whether it is on-hook
    Hook(bool),
    // KP?: whether it is pressed
    Ptt(bool),
}

// What stands before the value. No question has more than three letters.
fn opened(letters: &[u8]) -> Line
    requires { length letters.now ≤ 3 }
    ensures { Added empty_line (opening letters.now) 6 result }
{
    add(add(add(empty(), &[ESCAPE]), letters), b": ")
}

// No value of signs is longer than the version.
fn with_signs(letters: &[u8], signs: &[u8]) -> Line
    requires letters_len_bound { length letters.now ≤ 3 }
    requires signs_len_bound { length signs.now ≤ 24 }
    ensures { result ≡ added empty_line (answer letters.now signs.now) }
{
    add(add(opened(letters), signs), b"\r\n")
}

fn with_number(letters: &[u8], n: u8) -> Line
    requires { length letters.now ≤ 3 }
    ensures { result ≡ added empty_line (answer letters.now (decimal n)) }
{
    add(add_number(opened(letters), n as u16), b"\r\n")
}

fn with_pair(letters: &[u8], m: u8, n: u8) -> Line
    requires { length letters.now ≤ 3 }
    ensures { result ≡ added empty_line (answer letters.now (pair m n)) }
{
    let first = add(add_number(opened(letters), m as u16), b";");
    add(add_number(first, n as u16), b"\r\n")
}

// A switch is told by one sign or the other.
fn with_either(letters: &[u8], test: bool, one: u8, other: u8) -> Line
    requires { length letters.now ≤ 3 }
    ensures { result ≡ added empty_line (answer letters.now (cond test one other ∷ [])) }
{
    if test {
        return with_signs(letters, &[one]);
    }
    with_signs(letters, &[other])
}

// A line has room for every answer, so that what is built in it is the whole answer.
fn line_of(told: Told) -> Line
    ensures { result ≡ added empty_line (told_bytes told) }
{
    match told {
        Told::Silence => empty(),
        Told::Mark => add(empty(), b"?\r\n"),
        Told::Version => with_signs(b"&V", b"HA400 V.01.00 25.09.2006"),
        Told::Place(row, column) => with_pair(b"&H", row, column),
        Told::Mode(n) => with_number(b"IDM", n),
        Told::Light(mode, duration) => with_pair(b"IE", mode, duration),
        Told::Contrast(n) => with_number(b"IA", n),
        Told::Brightness(n) => with_number(b"IN", n),
        Told::Speaker(n) => with_number(b"IV", n),
        Told::Times(time1, time2) => with_pair(b"IT", time1, time2),
        Told::Hook(on_hook) => with_either(b"KH", on_hook, b'H', b'h'),
        Told::Ptt(pressed) => with_either(b"KP", pressed, b'P', b'p'),
    }
}

// What a line holds behind what is written, if all of it has room there: how much is written then.
fn put(answers: &mut [u8], written: usize, line: Line) -> usize
    requires { line.len ≤ most_codes }
    ensures value { result ≡ count_after answers.old written (held line) }
    ensures answers_after { answers.new ≡ buffer_after answers.old written (held line) }
{
    if answers.len() < written {
        return written;
    }
    if copy(line, &mut answers[written..]) {
        return written + line.len;
    }
    written
}

// The answer behind what is written, if all of it has room there: how much is written then.
pub fn tell(answers: &mut [u8], written: usize, told: Told) -> usize
    ensures same { result ≡ count_after answers.old written (told_bytes told) }
    ensures buffer { answers.new ≡ buffer_after answers.old written (told_bytes told) }
{
    put(answers, written, line_of(told))
}

// No answer at all.
pub fn is_silence(told: Told) -> bool
    ensures same { result ≡ is_silence told }
{
    matches!(told, Told::Silence)
}
