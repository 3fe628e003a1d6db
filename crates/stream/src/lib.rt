// The stream call: bytes in, the record and answers out. It is the parting's run at the handset's meaning.
// It is done on lent arrays, in place, so that a short call copies nothing large; `stream_by_value` has the same call on a record by value.
#![tactic(auto)]

ghost use Rattle.std.specs.Prelude.{◌≡◌, ℕ, ◌≤◌, ◌<◌, ◌+◌, length, get_or, true, false};
ghost use Rattle.lists.specs.Codes.{escape, carriage_return, blank};
ghost use Rattle.parting.specs.Rules.{limit};
ghost use Rattle.record.specs.Parts.{together};
ghost use Rattle.record.specs.declared.Edition.{Edition as KeptEdition};
ghost use Rattle.command.specs.Table.{classes, next_states};
ghost use Rattle.stream.specs.Turns.{Stores, Ends, Drops, Collects};
ghost use Rattle.answer.specs.Answers.{count_after, buffer_after};
ghost use Rattle.sister_effect.specs.Obey.{mark_of};
ghost use Rattle.stream.specs.Stream.{InRow, lent_of, standing, fed_of, answers_after, closes_own, reply_of, Ready, SharedCloses, Reads};

use answer::Answer;
use command::NextStates;
use effect::Obeyed;
use frame_table::Classes;
use lists::{BLANK, CARRIAGE_RETURN, ESCAPE};
use record::{
    Edition, FrameBytes, InParts, LONGEST_FRAME, NO_FRAME, Number, OPEN, OVERLONG, Picture, Record,
    Settings, Small, Text,
};
use sister_answer::Told;

#[derive(Clone, Copy)]
pub struct Fed {
    pub number: Number,
    pub record: Record,
    pub used: usize,
    pub written: usize,
}

// As Fed, where text, picture and the frame's bytes were lent.
#[derive(Clone, Copy)]
pub struct FedLent {
    pub number: Number,
    pub small: Small,
    pub used: usize,
    pub written: usize,
}

// What the loop leaves beside the lent arrays.
#[derive(Clone, Copy)]
struct AfterBytes {
    settings: Settings,
    edition: Edition,
    state: u8,
    len: usize,
    used: usize,
    written: usize,
}

// Stores text bytes from the cursor on, as long as they come and the row has room: how many. Most of a stream is text, so how far the loop may go is asked before it, and not for each byte.
// It looks at a byte and stores it in one go: to search the run's end and then copy would go over the bytes twice.
fn store_run(text: &mut Text, start: usize, column: u8, end: u8, bytes: &[u8], from: usize) -> usize
    requires { InRow start column end × (from ≤ length bytes.now) }
    ensures { (column + result < end → Ends bytes.now (from + result)) × (Stores start end column text.old bytes.now from (from + result) (column + result) text.new) }
{
    let at = start + column as usize;
    let most = ((end - column) as usize).min(bytes.len() - from);
    for k in 0..most {
        let b = bytes[from + k];
        if b < BLANK {
            return k;
        }
        text[at + k] = b;
    }
    most
}

// Where the text bytes end that find no place, in a row that is full.
fn drop_run(bytes: &[u8], from: usize) -> usize
    requires { from ≤ length bytes.now }
    ensures { (Ends bytes.now result) × (Drops bytes.now from result) }
{
    for i in from..bytes.len() {
        if bytes[i] < BLANK {
            return i;
        }
    }
    bytes.len()
}

// Where a run of text bytes ends, and the column after it.
#[derive(Clone, Copy)]
struct Run {
    at: usize,
    column: u8,
}

// Stores the text byte at a place and all that follow it at once; those past the row's end are dropped.
fn store_all(text: &mut Text, start: usize, column: u8, end: u8, bytes: &[u8], from: usize) -> Run
    requires { InRow start column end × (from < length bytes.now) × (blank ≤ get_or bytes.now from 0) }
    ensures { (from < result.at) × (Stores start end column text.old bytes.now from result.at result.column text.new) }
{
    let stored = store_run(text, start, column, end, bytes, from);
    let next = column + stored as u8;
    let at = from + stored;
    Run {
        at: if next < end { at } else { drop_run(bytes, at) },
        column: next,
    }
}

// CR in a frame that spells no command of the sister's own: a whole one is obeyed, if it is good. One that is not, and an overlong one, gets a question mark.
fn close(
    settings: Settings,
    text: &mut Text,
    picture: &mut Picture,
    frame: &[u8],
    state: u8,
    sister: bool,
    class: &Classes,
    next: &NextStates,
) -> Obeyed
    requires class_value { (class.now ≡ classes) × (next.now ≡ next_states) }
    requires frame_value { closes_own state sister frame.now ≡ false }
    ensures { (e : KeptEdition) → e.sister ≡ sister → SharedCloses settings text.old picture.old e state frame.now result text.new picture.new }
{
    if state == OPEN {
        effect::obey(settings, text, picture, frame, sister, class, next)
    } else {
        Obeyed {
            settings,
            answer: Answer::QuestionMark,
        }
    }
}

// Whether CR closes a frame that spells a command of the sister's own. The edition is asked first and by itself: asked together with the
// state it cost each frame of the first edition seven instructions more.
fn closes_own(state: u8, sister: bool, frame: &[u8]) -> bool
    ensures { result ≡ closes_own state sister frame.now }
{
    sister && (state == OPEN) & sister_command::is_own(frame)
}

// The mark of a bad frame behind what is written, if all of it has room there: how much is written then.
fn mark(answers: &mut [u8], written: usize, sister: bool) -> usize
    ensures value { result ≡ count_after answers.old written (mark_of sister) }
    ensures answers_after { answers.new ≡ buffer_after answers.old written (mark_of sister) }
{
    if sister {
        sister_answer::tell(answers, written, Told::Mark)
    } else {
        answer::say(answers, written, Answer::QuestionMark, 0, false)
    }
}

// What a frame is answered that is none of the sister's own: in her edition such a one is no question.
fn reply(
    answers: &mut [u8],
    written: usize,
    sister: bool,
    said: Answer,
    contrast: u8,
    hook: bool,
) -> usize
    ensures value { result ≡ count_after answers.old written (reply_of sister said contrast hook) }
    ensures answers_after { answers.new ≡ buffer_after answers.old written (reply_of sister said contrast hook) }
{
    if sister {
        mark(answers, written, true)
    } else {
        answer::say(answers, written, said, contrast, hook)
    }
}

// Collects bytes of an open frame, as long as they come and it has room: how many. Most bytes that are not text are collected, so this loop is as short as that of text. The first byte is known to be one of them, so the reader gets on.
fn collect_run(frame: &mut [u8], len: usize, bytes: &[u8], from: usize) -> usize
    requires { (length frame.old ≡ limit) × (len < limit) × (from < length bytes.now) × (get_or bytes.now from 0 ≡ escape → ⊥) × (get_or bytes.now from 0 ≡ carriage_return → ⊥) }
    ensures { (0 < result) × (Collects len frame.old bytes.now from (from + result) (len + result) frame.new) }
{
    let most = (LONGEST_FRAME - len).min(bytes.len() - from);
    for k in 0..most {
        let b = bytes[from + k];
        if b == ESCAPE || b == CARRIAGE_RETURN {
            return k;
        }
        frame[len + k] = b;
    }
    most
}

// Reads bytes until they end or an answer has no room. The index goes on by whole runs, so that it is no `for` over the bytes.
fn read(
    mut settings: Settings,
    text: &mut Text,
    picture: &mut Picture,
    frame: &mut [u8],
    mut edition: Edition,
    mut state: u8,
    mut len: usize,
    bytes: &[u8],
    answers: &mut [u8],
    class: &Classes,
    next: &NextStates,
) -> AfterBytes
    requires { (Ready settings text.old picture.old edition state len frame.old) × ((class.now ≡ classes) × (next.now ≡ next_states)) }
    ensures { Reads (standing settings text.old picture.old edition state len frame.old) bytes.now answers.old result text.new picture.new frame.new answers.new }
{
    let mut i = 0;
    let mut w = 0;
    while i < bytes.len() {
        let b = bytes[i];
        if state == NO_FRAME {
            if BLANK <= b {
                let start = record::row_start(settings.screen.mode, settings.screen.row);
                let end = record::row_end(settings.screen.mode);
                let run = store_all(text, start, settings.screen.column, end, bytes, i);
                settings.screen.column = run.column;
                i = run.at;
                continue;
            }
            if b == ESCAPE {
                state = OPEN;
                i += 1;
                continue;
            }
            i += 1;
            continue;
        }
        if b == ESCAPE {
            let told = mark(answers, w, edition.sister);
            if w < told {
                w = told;
                state = OPEN;
                len = 0;
                i += 1;
                continue;
            }
            break;
        }
        if b == CARRIAGE_RETURN {
            if closes_own(state, edition.sister, &frame[..len]) {
                let hers = sister_effect::obey_own_frame(
                    settings,
                    edition,
                    text,
                    picture,
                    &frame[..len],
                );
                settings = hers.settings;
                edition = hers.edition;
                if sister_answer::is_silence(hers.told) {
                    state = NO_FRAME;
                    len = 0;
                    i += 1;
                    continue;
                }
                let told = sister_answer::tell(answers, w, hers.told);
                if w < told {
                    w = told;
                    state = NO_FRAME;
                    len = 0;
                    i += 1;
                    continue;
                }
                break;
            }
            let o = close(
                settings,
                text,
                picture,
                &frame[..len],
                state,
                edition.sister,
                class,
                next,
            );
            settings = o.settings;
            if answer::is_silence(o.answer) {
                state = NO_FRAME;
                len = 0;
                i += 1;
                continue;
            }
            let told = reply(
                answers,
                w,
                edition.sister,
                o.answer,
                settings.contrast,
                settings.hook,
            );
            if w < told {
                w = told;
                state = NO_FRAME;
                len = 0;
                i += 1;
                continue;
            }
            break;
        }
        if state == OVERLONG {
            i += 1;
            continue;
        }
        if len < LONGEST_FRAME {
            let more = collect_run(frame, len, bytes, i);
            len += more;
            i += more;
            continue;
        }
        state = OVERLONG;
        len = 0;
        i += 1;
    }
    AfterBytes {
        settings,
        edition,
        state,
        len,
        used: i,
        written: w,
    }
}

// The stream call on lent arrays, for any record at all.
pub fn feed_lent(
    small: Small,
    text: &mut Text,
    picture: &mut Picture,
    frame: &mut FrameBytes,
    bytes: &[u8],
    answers: &mut [u8],
) -> FedLent
    ensures same { result ≡ lent_of (fed_of (together small text.old picture.old frame.old) bytes.now (length answers.old)) }
    ensures text { text.new ≡ (fed_of (together small text.old picture.old frame.old) bytes.now (length answers.old)).record.text }
    ensures picture { picture.new ≡ (fed_of (together small text.old picture.old frame.old) bytes.now (length answers.old)).record.picture }
    ensures frame { frame.new ≡ (fed_of (together small text.old picture.old frame.old) bytes.now (length answers.old)).record.frame.bytes }
    ensures buffer { answers.new ≡ answers_after (together small text.old picture.old frame.old) bytes.now answers.old }
{
    let parts = InParts {
        small,
        text,
        picture,
        frame,
    };
    if record_ranges::in_range_lent(parts) {
        let d = read(
            small.settings,
            text,
            picture,
            frame,
            small.edition,
            small.state,
            small.len as usize,
            bytes,
            answers,
            &command::CLASSES,
            &command::NEXT_STATES,
        );
        stream_places::empty_from(frame, d.len);
        FedLent {
            number: Number::Done,
            small: Small {
                settings: d.settings,
                held: small.held,
                state: d.state,
                len: d.len as u8,
                edition: d.edition,
            },
            used: d.used,
            written: d.written,
        }
    } else {
        FedLent {
            number: Number::FieldOutOfRange,
            small,
            used: 0,
            written: 0,
        }
    }
}
