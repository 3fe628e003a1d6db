// What the programs have in common: the words behind a program's name, the input that these name, and an output that does not
// fail in silence.
//
// A word that begins with - is an option, and the options of a program stand in a table, each with a line feed behind it; any
// other word is a file's name. What a program does not take it refuses, with the first line of its usage, and does nothing else.
// A usage has a first line that begins with "usage:" and at least one line more: ./run tells by it that a word was refused.
#![tactic(auto)]

ghost use Rattle.std.specs.Prelude.{◌≤◌, IfOk, IfSome, length};
ghost use Rattle.program.specs.declared.TheConstants.{LONGEST_WORD};
ghost use Rattle.program.specs.Counts.{IsPrefixLen};

use std::cell::Cell;
use std::env::{Env, FillError};
use std::fs::File;
use std::io::{Error, ErrorKind, Read, Stdin};
use std::{io, str};

const LINE_FEED: u8 = b'\n';

const MINUS: u8 = b'-';

// The longest word that can be had.
const LONGEST_WORD: usize = 4096;

// The system's number for a text that is not what it should be.
const NO_TEXT: i32 = 84;

// What a program runs on: the runtime; whether standard output has failed, and whether what it says has no reader any more.
#[derive(Drop)]
pub struct Host {
    rt: HostRuntime,
    silent: Cell<bool>,
    unread: Cell<bool>,
}

impl Host {
    pub fn new(rt: HostRuntime) -> Host {
        Host {
            rt,
            silent: Cell::new(false),
            unread: Cell::new(false),
        }
    }
}

// Complaints, on standard error.

// Where nobody reads any more no signal ends a program, so it reads no further and says no more.
fn heed(host: &Host, error: &Error) {
    if error.kind() == ErrorKind::BrokenPipe {
        host.unread.set(true);
    }
}

// Where standard error fails nobody is left to be told.
pub fn tell(host: &Host, words: &[u8]) {
    if host.unread.get() {
        return;
    }
    if let Err(error) = host.rt.stderr().write_all(words) {
        heed(host, &error);
    }
}

pub fn tell_number(host: &Host, n: u64) {
    if host.unread.get() {
        return;
    }
    if let Err(error) = host.rt.eprint(n) {
        heed(host, &error);
    }
}

// The words for an error, without its number.
fn words_of(text: &str) -> &str {
    text.split_once(" (os error ")
        .map_or(text, |(words, _)| words)
}

fn tell_error(host: &Host, error: &Error) {
    match format!(in host.rt.alloc(); "{error}") {
        Ok(text) => tell(host, words_of(text.as_str()).as_bytes()),
        Err(_) => tell(host, b"out of memory"),
    }
}

// Who complains, of what, and why the call failed.
fn complain(host: &Host, name: &[u8], what: &[u8], error: &Error) {
    tell(host, name);
    tell(host, b": ");
    tell(host, what);
    tell(host, b": ");
    tell_error(host, error);
    tell(host, b"\n");
}

// Standard output.

// Once standard output has failed what is written goes nowhere, so that this is complained of once and not at each line.
fn settle(host: &Host, name: &[u8], written: io::Result<()>) {
    if let Err(error) = written {
        complain(host, name, b"standard output", &error);
        host.silent.set(true);
        heed(host, &error);
    }
}

// Writes to standard output, and complains if that fails.
pub fn write(host: &Host, name: &[u8], bytes: &[u8]) {
    if host.silent.get() {
        return;
    }
    settle(host, name, host.rt.write_all(bytes));
}

pub fn write_number(host: &Host, name: &[u8], n: u64) {
    if host.silent.get() {
        return;
    }
    settle(host, name, host.rt.print(n));
}

// Writes the words of a number, from 0: each has a line of the table. A number past the last one has none. It is put in line nowhere:
// there the compiler would go through each table's bytes itself, one by one, and with long ones take minutes.
#[inline(never)]
pub fn write_entry(host: &Host, name: &[u8], table: &[u8], n: u8) {
    if let Some(line) = table.split(|code| *code == LINE_FEED).nth(n as usize) {
        write(host, name, line);
    }
}

// A code as it is printed: a dot for one that can't be.
pub fn printable(code: u8) -> u8
    ensures { (0x20 ≤ result) × (result ≤ 0x7E) }
{
    match code {
        0x20..=0x7E => code,
        _ => b'.',
    }
}

// Words. They are counted from 1; word 0 is the program's own name.

// A word; an empty one for one that is too long. Its room is fixed, so that no word is lost for want of memory.
#[derive(Clone, Copy)]
struct Word {
    room: [u8; LONGEST_WORD],
    length: usize,
    ghost fits: { length ≤ LONGEST_WORD },
}

impl Word {
    fn at(host: &Host, i: usize) -> Word {
        let mut room = [0; LONGEST_WORD];
        let length = copy_word(host, i, &mut room).unwrap_or(0);
        Word { room, length }
    }

    fn codes(&self) -> &[u8]
        ensures { length result.now ≤ LONGEST_WORD }
    {
        &self.room[..self.length]
    }
}

#[derive(Clone, Copy, PartialEq, Eq)]
enum Kind {
    Option,
    File,
    Unknown,
}

// Whether a table, with a line feed behind each entry, has this word.
fn has_entry(table: &[u8], word: &[u8]) -> bool {
    table
        .split(|code| *code == LINE_FEED)
        .any(|entry| entry == word)
}

// An empty word, and one that is too long, is no file's name.
fn kind_of(word: &[u8], options: &[u8]) -> Kind {
    match word {
        [] => Kind::Unknown,
        [MINUS, ..] if has_entry(options, word) => Kind::Option,
        [MINUS, ..] => Kind::Unknown,
        _ => Kind::File,
    }
}

// How many words there are, the program's own name among them.
fn word_count(host: &Host) -> usize {
    (0..usize::MAX)
        .find(|i| {
            let mut none = [0u8; 1];
            matches!(host.rt.arg(*i, &mut none), Err(FillError::NotPresent))
        })
        .unwrap_or(usize::MAX)
}

// Copies a word to the front of the room, if it has no more codes than the room takes: how many it has.
fn copy_word(host: &Host, i: usize, room: &mut [u8]) -> Option<usize>
    ensures { IfSome result (λ n. IsPrefixLen n room.new) }
{
    host.rt.arg(i, room).ok()
}

fn kind_at(host: &Host, i: usize, options: &[u8]) -> Kind {
    kind_of(Word::at(host, i).codes(), options)
}

// Whether an option is among the words. It is named as in a table, with its line feed.
pub fn is_given(host: &Host, option: &[u8]) -> bool {
    (1..word_count(host)).any(|i| kind_at(host, i, option) == Kind::Option)
}

// Which word names a file.
fn file_word(host: &Host) -> Option<usize> {
    (1..word_count(host)).find(|i| kind_at(host, *i, b"") == Kind::File)
}

// Of a program that knows these options and reads a file or none: the first word that it does not take is an error.
fn check_words(host: &Host, options: &[u8], reads: bool) -> Result<(), usize> {
    let mut wanted = reads;
    for i in 1..word_count(host) {
        match kind_at(host, i, options) {
            Kind::Option => {}
            Kind::File if wanted => wanted = false,
            Kind::File | Kind::Unknown => return Err(i),
        }
    }
    Ok(())
}

// Usage.

// The first line, with its line feed, and the lines behind it.
fn parted(usage: &[u8]) -> (&[u8], &[u8]) {
    match usage.iter().position(|code| *code == LINE_FEED) {
        Some(end) => (&usage[..=end], &usage[end + 1..]),
        None => (b"", usage),
    }
}

fn refuse(host: &Host, usage: &[u8], i: usize) {
    let (first, _) = parted(usage);
    tell(host, first);
    tell(host, b"this word is not taken: ");
    tell(host, Word::at(host, i).codes());
    tell(host, b"\n");
}

// All of a usage but its first line, on standard error, where a program's input asks for help.
pub fn tell_help(host: &Host, usage: &[u8]) {
    let (_, lines) = parted(usage);
    tell(host, lines);
}

// Whether a program can go on with its words. If not it is done: help was asked for and is written, or a word was refused.
pub fn accepts(host: &Host, name: &[u8], usage: &[u8], options: &[u8], reads: bool) -> bool {
    if is_given(host, b"--help\n") {
        write(host, name, usage);
        return false;
    }
    match check_words(host, options, reads) {
        Ok(()) => true,
        Err(i) => {
            refuse(host, usage, i);
            false
        }
    }
}

// Input.

#[derive(Drop)]
enum Source {
    Standard(Stdin),
    Opened(File, Word),
}

// A file that was opened by its name, or standard input, which has none; and why the last call failed that did.
#[derive(Drop)]
pub struct Input {
    source: Source,
    error: Option<Error>,
}

impl Input {
    // What it is called.
    pub fn name(&self) -> &[u8]
        ensures { length result.now ≤ LONGEST_WORD }
    {
        match &self.source {
            Source::Standard(_) => b"standard input",
            Source::Opened(_, path) => path.codes(),
        }
    }
}

impl Read for Input {
    fn read(&mut self, buf: &mut [u8]) -> io::Result<usize> {
        let got = match &mut self.source {
            Source::Standard(stdin) => stdin.read(buf),
            Source::Opened(file, _) => file.read(buf),
        };
        if let Err(error) = &got {
            self.error = Some(*error);
        }
        got
    }
}

// Complains of an input on which a call failed.
pub fn complain_of(host: &Host, name: &[u8], input: &Input) {
    if let Some(error) = &input.error {
        complain(host, name, input.name(), error);
    }
}

// Says why a program does not take an input, on which no call failed.
pub fn refuse_input(host: &Host, name: &[u8], input: &Input, why: &[u8]) {
    tell(host, name);
    tell(host, b": ");
    tell(host, input.name());
    tell(host, b": ");
    tell(host, why);
    tell(host, b"\n");
}

// A path is text.
fn open(host: &Host, path: &[u8]) -> io::Result<File> {
    match str::from_utf8(path) {
        Ok(path) => File::open(&host.rt, path),
        Err(_) => Err(Error::from_raw_os_error(NO_TEXT)),
    }
}

// The file that the words name, or standard input if they name none. A file that can't be opened is complained of, and is no
// input.
pub fn open_input(host: &Host, name: &[u8]) -> Option<Input> {
    let Some(i) = file_word(host) else {
        return Some(Input {
            source: Source::Standard(host.rt.stdin()),
            error: None,
        });
    };
    let path = Word::at(host, i);
    match open(host, path.codes()) {
        Ok(file) => Some(Input {
            source: Source::Opened(file, path),
            error: None,
        }),
        Err(error) => {
            complain(host, name, path.codes(), &error);
            None
        }
    }
}

// An input is read no further, and why has been told.
#[derive(Clone, Copy, Debug, PartialEq, Eq)]
pub struct Unreadable;

// Reads a piece of an input, of which 0 bytes come at the end, and complains if that fails. Where nobody reads what is said any more
// nothing is read either: the input may have no end.
pub fn read_piece(
    host: &Host,
    name: &[u8],
    input: &mut Input,
    piece: &mut [u8],
) -> Result<usize, Unreadable>
    ensures { IfOk result (λ n. IsPrefixLen n piece.new) }
{
    if host.unread.get() {
        return Err(Unreadable);
    }
    match input.read(piece) {
        Ok(n) => Ok(n),
        Err(_) => {
            complain_of(host, name, input);
            Err(Unreadable)
        }
    }
}

// The word that is no option, at the front of the room, if there is one that the room takes: how many codes it has.
pub fn read_word(host: &Host, room: &mut [u8]) -> Option<usize>
    ensures { IfSome result (λ n. IsPrefixLen n room.new) }
{
    copy_word(host, file_word(host)?, room)
}
