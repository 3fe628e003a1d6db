// What the collector is answered: a question mark to a bad frame, and the answers to its questions. An answer is written whole or not
// at all. specs/Answers.antt has the bytes.
#![tactic(auto)]

ghost use Rattle.std.specs.Prelude.{◌≡◌, true};
ghost use Rattle.answer.specs.Answers.{answer_bytes, is_silence, count_after, buffer_after, heads};

use lists::{CARRIAGE_RETURN, ESCAPE, QUESTION_MARK};

#[derive(Clone, Copy)]
pub enum Answer {
    Silence,
    QuestionMark,
    Contrast,
    Hook,
    Version,
}

pub fn is_silence(answer: Answer) -> bool
    ensures same { result ≡ is_silence answer }
{
    matches!(answer, Answer::Silence)
}

// Bytes behind what is written, if all of them have room there: how much is written then.
#[tactic(auto, using(lists::specs::Written::part_written))]
pub fn put(answers: &mut [u8], written: usize, bytes: &[u8]) -> usize
    ensures same { result ≡ count_after answers.old written bytes.now }
    ensures buffer { answers.new ≡ buffer_after answers.old written bytes.now }
{
    let n = bytes.len();
    if answers.len() < written || answers.len() - written < n {
        return written;
    }
    answers[written..written + n].copy_from_slice(bytes);
    written + n
}

// ESC IA, the contrast's one to three digits, CR: the same on-hook and off-hook.
fn say_contrast(answers: &mut [u8], written: usize, contrast: u8) -> usize
    ensures value { result ≡ count_after answers.old written (answer_bytes Answer.Contrast contrast true) }
    ensures answers_after { answers.new ≡ buffer_after answers.old written (answer_bytes Answer.Contrast contrast true) }
{
    let digits = numeral::digits_of(contrast as u16);
    let n = digits.len as usize;
    let mut bytes = *b"\x1BIA\0\0\0\0";
    bytes[3..3 + n].copy_from_slice(&digits.bytes[..n]);
    bytes[3 + n] = CARRIAGE_RETURN;
    put(answers, written, &bytes[..4 + n])
}

// The answer behind what is written, if all of it has room there: how much is written then.
pub fn say(answers: &mut [u8], written: usize, answer: Answer, contrast: u8, hook: bool) -> usize
    ensures same { result ≡ count_after answers.old written (answer_bytes answer contrast hook) }
    ensures buffer { answers.new ≡ buffer_after answers.old written (answer_bytes answer contrast hook) }
{
    match answer {
        Answer::Silence => written,
        Answer::QuestionMark => put(answers, written, b"?"),
        Answer::Contrast => say_contrast(answers, written, contrast),
        Answer::Hook => put(
            answers,
            written,
            if hook { b"\x1BIHH\r" } else { b"\x1BIHh\r" },
        ),
        Answer::Version => put(answers, written, b"\x1B&VHA209 V.01.01 11.07.2006\r\n"),
    }
}

// How many answers these bytes are: they are counted by their first bytes.
#[tactic(auto, using(lists::specs::Counted::counted_by))]
pub fn count(answers: &[u8]) -> usize
    ensures same { result ≡ heads answers.now }
{
    answers
        .iter()
        .filter(|b| matches!(**b, QUESTION_MARK | ESCAPE))
        .count()
}
