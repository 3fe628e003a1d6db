// Writes the frames of a collector from lines of plain words. Its input, a file or standard input, has a command on each line;
// standard output gets the bytes of its frame, through the proved writers. A line that can't be taken is named on standard error,
// with its number and the reason, and nothing of it is written. Words are parted by blanks and numbers have one to three digits, without leading zeros.
// An empty line says nothing, and so does one that begins with #. A line has at most 1024 bytes, and may end with CR LF. With
// --sister the frames are those of the sister handset. The usage below has the lines.
#![tactic(auto)]

use command::{Command, Side};
use handset_numbers::{command_of, sister_command_of};
use lists::{BLANK, CARRIAGE_RETURN, LINE_FEED};
use numeral::read_number;
use picture::MOST_COLUMNS;
use program::{Host, Input, Unreadable};
use record::LAST_ROW;
use sister_command::SisterCommand;

// Stands in the table of phrases for a number that is wanted.
const NUMBER_SIGN: u8 = b'#';

// Stands there before the words of a range.
const COLON: u8 = b':';

// Stand there before a phrase that only the first edition has, and one that only the sister has.
const FIRST_ONLY: u8 = b'<';

const SISTER_ONLY: u8 = b'>';

// The line of that table with command 0, and that of the first command that is the sister's own; the others follow by their kinds.
const FIRST_COMMAND: u8 = 8;

const FIRST_OWN: u8 = 41;

// The kind of that one.
const OWN_KIND: u8 = 64;

// What a phrase says: a command by its kind, or one of the sister's own; or else what is no command, or one in other words.
#[derive(Clone, Copy)]
enum Phrase {
    Label(Side),
    Text,
    Frame,
    Picture,
    Help,
    Icon,
    LightOff,
    Command(u8),
    Own(u8),
}

// Why a line can't be taken that begins with a phrase.
#[derive(Clone, Copy)]
enum Refusal {
    NoSuchIcon,
    BadNumbers,
    OutOfRange,
    BadColumns,
    BadText,
}

// The phrase that a line begins with: how many numbers are wanted behind it, the words of what is in range, and the rest of the line.
#[derive(Clone, Copy)]
struct Found<'a> {
    phrase: Phrase,
    wanted: usize,
    range: &'a [u8],
    rest: &'a [u8],
}

// Where the lines come from: whether they are the sister's, the number of the one that is being read, and how many of its bytes are
// held; None of a line that is too long.
#[derive(Drop)]
struct Script {
    sister: bool,
    number: u64,
    line: [u8; 1024],
    held: Option<usize>,
}

// Standard error.

fn tell(host: &Host, words: &[u8]) {
    program::tell(host, words);
}

// A reason comes with its colon and its line feed, so that it is told in one piece.
fn refuse(host: &Host, number: u64, reason: &[u8]) {
    tell(host, b"write_frame: line ");
    program::tell_number(host, number);
    tell(host, reason);
}

// Standard output.

fn say(host: &Host, bytes: &[u8]) {
    program::write(host, b"write_frame", bytes);
}

// Says what a writer writes.
fn send<F: FnOnce(&mut [u8]) -> Result<usize, record::Refusal>>(
    host: &Host,
    write: F,
) -> Result<(), Refusal>
    requires { F.IsAlwaysCallable write }
{
    let mut room = [0; 200];
    let Ok(count) = write(&mut room) else {
        return Err(Refusal::OutOfRange);
    };
    if let Some(bytes) = room.get(..count) {
        say(host, bytes);
    }
    Ok(())
}

fn send_command(host: &Host, c: Command, sister: bool) -> Result<(), Refusal> {
    if sister {
        send(host, |room| writer::write_shared(c, room))
    } else {
        send(host, |room| writer::write_command(c, room))
    }
}

fn send_own(host: &Host, c: SisterCommand) -> Result<(), Refusal> {
    send(host, |room| writer::write_own(c, room))
}

// A text goes out as it is.
fn send_text(host: &Host, text: &[u8]) -> Result<(), Refusal> {
    if text.iter().any(|code| *code < BLANK) {
        return Err(Refusal::BadText);
    }
    say(host, text);
    Ok(())
}

// A frame goes out as it is typed.
fn send_frame(host: &Host, body: &[u8]) {
    say(host, b"\x1B");
    say(host, body);
    say(host, b"\r\n");
}

// The words of a line.

// What comes before the first code that ends it, and the rest.
fn parted<P: Fn(u8) -> bool>(codes: &[u8], ends: P) -> (&[u8], &[u8])
    requires { P.IsAlwaysCallable ends }
{
    match codes.iter().position(|code| ends(*code)) {
        Some(end) => codes.split_at(end),
        None => (codes, b""),
    }
}

fn without_blanks(words: &[u8]) -> &[u8] {
    parted(words, |code| code != BLANK).1
}

// The first word as a number, and what stands behind it.
fn next_number(words: &[u8]) -> Option<(u16, &[u8])> {
    let (word, rest) = parted(without_blanks(words), |code| code == BLANK);
    Some((read_number(word)?, rest))
}

// The numbers that are wanted behind a phrase, a 0 for each that is not, if nothing else stands there.
fn numbers_behind(found: &Found) -> Result<[u16; 2], Refusal> {
    let mut numbers = [0; 2];
    let mut words = found.rest;
    for number in numbers.iter_mut().take(found.wanted) {
        let (n, rest) = next_number(words).ok_or(Refusal::BadNumbers)?;
        *number = n;
        words = rest;
    }
    if without_blanks(words).is_empty() {
        Ok(numbers)
    } else {
        Err(Refusal::BadNumbers)
    }
}

// Picture rows.

// How many columns a text spells, two digits each; blanks stand only between columns.
fn read_columns(text: &[u8], columns: &mut [u8; MOST_COLUMNS]) -> Option<usize> {
    let mut digits = 0;
    for code in text {
        if *code == BLANK && digits % 2 == 0 {
            continue;
        }
        let value = char::from(*code).to_digit(16)?;
        let column = columns.get_mut(digits / 2)?;
        *column = *column % 16 * 16 + value as u8;
        digits += 1;
    }
    (digits % 2 == 0).then_some(digits / 2)
}

fn obey_columns(host: &Host, row: u8, text: &[u8]) -> Result<(), Refusal> {
    let mut columns = [0; MOST_COLUMNS];
    let count = read_columns(text, &mut columns).ok_or(Refusal::BadColumns)?;
    match columns.get(..count) {
        None | Some([]) => Err(Refusal::BadColumns),
        Some(columns) => send(host, |room| writer::write_picture_row(row, columns, room)),
    }
}

// A picture row: its number, and the text of its columns.
fn obey_picture(host: &Host, words: &[u8]) -> Result<(), Refusal> {
    let (row, text) = next_number(words).ok_or(Refusal::BadColumns)?;
    if row > u16::from(LAST_ROW) {
        return Err(Refusal::OutOfRange);
    }
    obey_columns(host, row as u8, text)
}

// Lines.

// The usage, which --help asks for; its lines, which a line help asks for.
fn usage() -> &'static [u8] {
    b"usage: ./run write_frame [--sister] [FILE]\n\
        Reads lines from FILE, or from standard input without one, and writes the bytes of their frames. The lines:\n\
        display on | display off\n\
        mode N                    text mode 0 1 5 6 10, or overlay 11 to 18\n\
        cursor show | cursor hide\n\
        clear                     all text blank, cursor at 0 0\n\
        clear line                blank from the cursor to the end of its row\n\
        at ROW COLUMN             the cursor: row 0-4, column 0-15\n\
        inverse N                 the text row that is seen inverse, 1-5; 0 for none\n\
        left TEXT | right TEXT    a label: all behind one blank, at most 7 codes; no TEXT empties it\n\
        labels empty              both\n\
        icon LETTER N             S 0-1, U 0 1 255, F 0-6, R 0-1, P 0-19, W 0-3\n\
        private N | handsfree N   the volume, 0-10; 0 for none\n\
        handsfree note N          the same as handsfree N, in the note's spelling, II\n\
        mute N                    0-1\n\
        times N N                 Time1 4-50, Time2 0 or 4-50, in 100 ms\n\
        buzzer N                  0-255, in 10 ms\n\
        light N                   the duration, 1-255 s; 0 for off\n\
        light on | light off\n\
        light auto                auto, its time starts anew\n\
        light auto keep           auto, its time as it is\n\
        light default             the duration 30 s\n\
        keypad on | keypad off\n\
        contrast N                1-20\n\
        ask contrast | ask hook | ask version\n\
        picture ROW COLUMNS       row 0-6; 1 to 96 columns, two digits 0-9 A-F each, blanks between them or not\n\
        text TEXT                 all behind one blank, as it is and in no frame; codes 0x20-0xFF\n\
        frame TEXT                a frame as it is typed, good, bad or out of range: ESC, all behind one blank, CR LF\n\
        help                      these lines, on standard error\n\
        --sister writes the frames of the sister handset (AN1900). She has no cursor show, cursor hide, handsfree note and light default, but:\n\
        mode N                    0-3 for the text modes 0 1 5 6, 4 for mode 10, 5-12 for the overlays 11 to 18\n\
        cursor N                  1 shown, 0 not\n\
        icon U N                  0-2; 2 flashes\n\
        times N N                 as above, or 0 0\n\
        light N                   the duration, 1-250 s; 0 for off\n\
        light pwm on | light pwm auto\n\
        light restart             its time starts anew, in auto\n\
        keypad off start          keypad off, and its time starts anew\n\
        brightness N | speaker N  0-100 | 0-7\n\
        contrast up | contrast down, and so brightness and speaker\n\
        restart                   as at power-on, but for what is stored\n\
        ask position | ask ptt | ask mode | ask light | ask brightness | ask times | ask speaker\n"
}

fn obey_phrase(host: &Host, found: &Found, sister: bool) -> Result<(), Refusal> {
    match found.phrase {
        Phrase::Label(side) => send(host, |room| writer::write_label(side, found.rest, room)),
        Phrase::Text => send_text(host, found.rest),
        Phrase::Frame => {
            send_frame(host, found.rest);
            Ok(())
        }
        Phrase::Picture => obey_picture(host, found.rest),
        Phrase::Help => {
            program::tell_help(host, usage());
            Ok(())
        }
        Phrase::Icon => Err(Refusal::NoSuchIcon),
        Phrase::LightOff => {
            numbers_behind(found)?;
            if sister {
                send_own(host, SisterCommand::Light(0))
            } else {
                send_command(host, Command::Light(0), false)
            }
        }
        Phrase::Command(kind) => {
            let [a, b] = numbers_behind(found)?;
            send_command(host, command_of(kind, a, b), sister)
        }
        Phrase::Own(kind) => {
            let [a, b] = numbers_behind(found)?;
            send_own(host, sister_command_of(kind, a, b))
        }
    }
}

// A phrase that wants no number wants no word at all behind it.
fn refuse_numbers(host: &Host, wanted: usize, number: u64) {
    match wanted {
        1 => refuse(
            host,
            number,
            b": one number of one to three digits is wanted, and no leading zero\n",
        ),
        2 => refuse(
            host,
            number,
            b": two numbers of one to three digits are wanted, and no leading zero\n",
        ),
        _ => refuse(host, number, b": nothing is wanted behind these words\n"),
    }
}

fn tell_refusal(host: &Host, refusal: Refusal, found: &Found, number: u64) {
    match refusal {
        Refusal::NoSuchIcon => refuse(
            host,
            number,
            b": icons are S U F R P W, in capital letters\n",
        ),
        Refusal::BadNumbers => refuse_numbers(host, found.wanted, number),
        Refusal::OutOfRange => {
            refuse(host, number, b": out of range");
            tell(host, found.range);
            tell(host, b"\n");
        }
        Refusal::BadColumns => refuse(
            host,
            number,
            b": wanted are a row and 1 to 96 columns, two digits 0-9 A-F each\n",
        ),
        Refusal::BadText => refuse(host, number, b": a text has no code below 0x20\n"),
    }
}

// The table of phrases. Behind a phrase stand a # for each number that is wanted and, where something can be out of range, a colon and
// what is in range. The commands come in the order of their numbers. Of phrases that begin with the same words the longest is meant.
// Before a phrase that one edition alone has stands its mark. A line of words is plainer than a row of five fields.
fn phrases() -> &'static [u8] {
    b"left: a label has at most 7 codes, none below 0x20\n\
    right: a label has at most 7 codes, none below 0x20\n\
    text\n\
    frame\n\
    picture: picture rows are 0-6, and columns of row 6 are 00-1F\n\
    help\n\
    icon\n\
    light off\n\
    display off\n\
    display on\n\
    <mode#: mode is 0 1 5 6 10 or 11 to 18\n\
    <cursor show\n\
    <cursor hide\n\
    clear\n\
    at##: at is a row 0-4 and a column 0-15\n\
    labels empty\n\
    icon S#: icon S is 0-1\n\
    <icon U#: icon U is 0 1 or 255\n\
    icon F#: icon F is 0-6\n\
    icon R#: icon R is 0-1\n\
    icon P#: icon P is 0-19\n\
    icon W#: icon W is 0-3\n\
    private#: private is 0-10\n\
    handsfree#: handsfree is 0-10\n\
    <handsfree note#: handsfree is 0-10\n\
    mute#: mute is 0-1\n\
    <times##: times are 4-50 and 0 or 4-50\n\
    buzzer#: buzzer is 0-255\n\
    <light#: light is 0-255\n\
    <light on\n\
    <light auto\n\
    <light auto keep\n\
    <light default\n\
    <keypad on\n\
    <keypad off\n\
    contrast#: contrast is 1-20\n\
    <ask contrast\n\
    <ask hook\n\
    <ask version\n\
    clear line\n\
    inverse#: inverse is 0-5\n\
    >cursor#: cursor is 0-1\n\
    >restart\n\
    >mode#: mode is 0-12\n\
    >light#: light is 0-250\n\
    >light on\n\
    >light auto\n\
    >light auto keep\n\
    >light pwm on\n\
    >light pwm auto\n\
    >light restart\n\
    >keypad on\n\
    >keypad off start\n\
    >keypad off\n\
    >icon U#: icon U is 0-2\n\
    >brightness#: brightness is 0-100\n\
    >times##: times are 4-50 and 0 or 4-50, or 0 and 0\n\
    >speaker#: speaker is 0-7\n\
    >ask position\n\
    >ask version\n\
    >ask hook\n\
    >ask ptt\n\
    >ask contrast\n\
    >ask mode\n\
    >ask light\n\
    >ask brightness\n\
    >ask times\n\
    >ask speaker\n\
    >contrast up\n\
    >contrast down\n\
    >brightness up\n\
    >brightness down\n\
    >speaker up\n\
    >speaker down\n"
}

// What the phrase of a line of the table says.
fn phrase_of(line: u8) -> Phrase {
    match line {
        0 => Phrase::Label(Side::Left),
        1 => Phrase::Label(Side::Right),
        2 => Phrase::Text,
        3 => Phrase::Frame,
        4 => Phrase::Picture,
        5 => Phrase::Help,
        6 => Phrase::Icon,
        7 => Phrase::LightOff,
        FIRST_COMMAND..FIRST_OWN => Phrase::Command(line - FIRST_COMMAND),
        FIRST_OWN.. => Phrase::Own((line - FIRST_OWN).saturating_add(OWN_KIND)),
    }
}

// The words of a phrase, without a mark, if the edition has it.
fn of_edition(words: &[u8], sister: bool) -> Option<&[u8]> {
    match words {
        [FIRST_ONLY, words @ ..] => (!sister).then_some(words),
        [SISTER_ONLY, words @ ..] => sister.then_some(words),
        _ => Some(words),
    }
}

// What a line has behind the words of a phrase and the one blank that ends them, if it begins with these words. Between two words it may
// have more blanks.
fn behind_words<'a>(line: &'a [u8], words: &[u8]) -> Option<&'a [u8]> {
    let mut rest = line;
    for sign in words {
        rest = rest.strip_prefix(&[*sign])?;
        if *sign == BLANK {
            rest = without_blanks(rest);
        }
    }
    match rest {
        [] => Some(rest),
        [BLANK, rest @ ..] => Some(rest),
        _ => None,
    }
}

// The longest phrase that a line begins with.
fn find(line: &[u8], sister: bool) -> Option<Found<'_>> {
    let mut found: Option<Found> = None;
    for (entry, number) in phrases().split(|sign| *sign == LINE_FEED).zip(0u8..=255) {
        let (words, behind) = parted(entry, |sign| matches!(sign, NUMBER_SIGN | COLON));
        let Some(rest) = of_edition(words, sister).and_then(|words| behind_words(line, words))
        else {
            continue;
        };
        if found.is_none_or(|longest| rest.len() < longest.rest.len()) {
            let (wanted, range) = parted(behind, |sign| sign != NUMBER_SIGN);
            found = Some(Found {
                phrase: phrase_of(number),
                wanted: wanted.len(),
                range,
                rest,
            });
        }
    }
    found
}

// A line that says nothing is taken.
fn obey(host: &Host, line: &[u8], number: u64, sister: bool) {
    let line = without_blanks(line);
    if matches!(line, [] | [b'#', ..]) {
        return;
    }
    let Some(found) = find(line, sister) else {
        refuse(
            host,
            number,
            b": no such command; the line help lists them\n",
        );
        return;
    };
    if let Err(refusal) = obey_phrase(host, &found, sister) {
        tell_refusal(host, refusal, &found, number);
    }
}

impl Script {
    fn new(sister: bool) -> Script {
        Script {
            sister,
            number: 1,
            line: [0; 1024],
            held: Some(0),
        }
    }

    // The line that is held is whole.
    fn take_line(&self, host: &Host) {
        match self.held.and_then(|held| self.line.get(..held)) {
            Some([line @ .., CARRIAGE_RETURN]) => obey(host, line, self.number, self.sister),
            Some(line) => obey(host, line, self.number, self.sister),
            None => refuse(host, self.number, b": longer than 1024 bytes\n"),
        }
    }

    fn take_byte(&mut self, host: &Host, b: u8) {
        if b == LINE_FEED {
            self.take_line(host);
            self.number = self.number.wrapping_add(1);
            self.held = Some(0);
            return;
        }
        match self.held {
            Some(held) if held < self.line.len() => {
                self.line[held] = b;
                self.held = Some(held + 1);
            }
            _ => self.held = None,
        }
    }
}

// Nothing says that the input ends, so its pieces are counted. Of an input that fails the line that is not whole is not taken.
fn take_input(host: &Host, input: &mut Input) -> Result<(), Unreadable> {
    let mut script = Script::new(program::is_given(host, b"--sister\n"));
    let mut piece = [0u8; 4096];
    for _ in 0..u64::MAX {
        let n = program::read_piece(host, b"write_frame", input, &mut piece)?;
        if n == 0 {
            break;
        }
        for b in &piece[..n] {
            script.take_byte(host, *b);
        }
    }
    // The last line may lack its LF.
    script.take_line(host);
    Ok(())
}

fn accepted(host: &Host) -> bool {
    program::accepts(host, b"write_frame", usage(), b"--sister\n", true)
}

fn main(rt: HostRuntime) {
    let host = Host::new(rt);
    if accepted(&host) {
        if let Some(mut input) = program::open_input(&host, b"write_frame") {
            // What fails is told.
            let _ = take_input(&host, &mut input);
        }
    }
}
