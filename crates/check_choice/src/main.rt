// Reads a whole stream from a file or from standard input and prints whether it keeps the shop's four rules for screens that ask for
// a choice: YES, or NO with the earliest offset where a rule is broken and the rule's number, and a line that says the rule in words.
// The stream is held in memory and judged at once. Of an input that fails, or is too long, nothing is printed: what came before is not
// the stream.
#![tactic(auto)]

ghost use Rattle.std.specs.Prelude.{◌≡◌, IfOk, length};
ghost use Rattle.program.specs.Counts.{IsPrefixLen};

use choice::{BrokenRule, Rule};
use program::{Host, Input, Unreadable};

// The longest stream that is judged. The usage and the refusal say it too.
const MOST_BYTES: usize = 1048576;

// One place more than that: a stream that fills them all is too long.
const PLACES: usize = MOST_BYTES + 1;

// Printing.

fn say(host: &Host, words: &[u8]) {
    program::write(host, b"check_choice", words);
}

fn say_number(host: &Host, n: u64) {
    program::write_number(host, b"check_choice", n);
}

// The words are the request's, and behind them is what to look for.
fn say_broken(host: &Host, broken: BrokenRule) {
    let (rule, words): (u64, &[u8]) = match broken.rule {
        Rule::NoScreen => (
            1,
            b"The first part must be an obeyed ID0 or ID5: look at what the stream begins with.\n",
        ),
        Rule::LabelMissing => (
            2,
            b"After each later ID0, ID1, ID5, ID6 or ID10 both labels must be set, and neither empty, before the next text byte, \
            the next IDn or the end: look before this offset for an IK1 or IK2 that is missing, empty or undone by IK0.\n",
        ),
        Rule::QuestionMark => (
            3,
            b"No '?' may be given: look at this offset for a frame that is misspelt, too long or cut off by another ESC.\n",
        ),
        Rule::FrameOpen => (
            4,
            b"No frame may be left open: look behind the ESC at this offset for the CR that is missing.\n",
        ),
    };
    say(host, b"NO ");
    say_number(host, broken.offset as u64);
    say(host, b" ");
    say_number(host, rule);
    say(host, b"\n");
    say(host, words);
}

// Reading.

fn empty_places() -> [u8; PLACES]
    ensures { 1048577 ≡ length result }
{
    [0; PLACES]
}

// Reads to the input's end, or until no place is left: how much is held then.
fn read_whole(host: &Host, input: &mut Input, places: &mut [u8]) -> Result<usize, Unreadable>
    ensures { IfOk result (λ n. IsPrefixLen n places.new) }
{
    let mut held = 0;
    while held < places.len() {
        let n = program::read_piece(host, b"check_choice", input, &mut places[held..])?;
        if n == 0 {
            break;
        }
        held += n;
    }
    Ok(held)
}

fn judge(host: &Host, input: &mut Input) {
    let mut places = empty_places();
    let Ok(n) = read_whole(host, input, &mut places) else {
        return;
    };
    if MOST_BYTES < n {
        program::refuse_input(host, b"check_choice", input, b"longer than 1048576 bytes");
        return;
    }
    match choice::check(&places[..n]) {
        Ok(()) => say(host, b"YES\n"),
        Err(broken) => say_broken(host, broken),
    }
}

fn accepted(host: &Host) -> bool {
    program::accepts(
        host,
        b"check_choice",
        b"usage: ./run check_choice [FILE]\n\
        Reads a stream from FILE, or from standard input without one, and prints whether it keeps the four rules of choice screens.\n\
        That is YES, or NO with the earliest offset where one is broken, counted from 0, and its number; then a line has it in words.\n\
        A stream longer than 1048576 bytes is refused.\n",
        b"",
        true,
    )
}

fn main(rt: HostRuntime) {
    let host = Host::new(rt);
    if accepted(&host) {
        if let Some(mut input) = program::open_input(&host, b"check_choice") {
            judge(&host, &mut input);
        }
    }
}
