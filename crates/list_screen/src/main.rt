// Reads a stream from a file or from standard input, from the power-on record, and prints the fields of the screen. Of an input
// that fails nothing is printed: what came before is not the stream.
// With --sister the power-on record is that of the sister handset, which reads her own frames. What is printed is what is kept, in
// either edition: after her IDM2 it is MODE 5, and the letter that her IU2 has flashing is 255.
// REPLIES counts answers, not their bytes. Codes outside 0x20 to 0x7E are printed as '.'. A frame that is still open at the end is
// not seen.
#![tactic(auto)]

use program::{Host, Input};
use record::{Icons, Label, Record, Settings, Text, Volume};

fn say(host: &Host, words: &[u8]) {
    program::write(host, b"list_screen", words);
}

fn say_number(host: &Host, words: &[u8], n: u64) {
    say(host, words);
    program::write_number(host, b"list_screen", n);
}

fn say_flag(host: &Host, words: &[u8], flag: bool) {
    say_number(host, words, u64::from(flag));
}

// Codes in brackets.
fn say_codes(host: &Host, codes: &[u8]) {
    say(host, b"[");
    for code in codes {
        say(host, &[program::printable(*code)]);
    }
    say(host, b"]\n");
}

fn say_label(host: &Host, words: &[u8], label: &Label) {
    say(host, words);
    say_codes(
        host,
        label
            .codes
            .get(..label.len as usize)
            .unwrap_or(&label.codes),
    );
}

fn say_text(host: &Host, text: &Text) {
    for (row, codes) in text.chunks(16).take(5).enumerate() {
        say_number(host, b"TEXT ", row as u64);
        say(host, b" ");
        say_codes(host, codes);
    }
}

fn say_screen(host: &Host, settings: &Settings) {
    let screen = &settings.screen;
    say_number(host, b"MODE ", u64::from(screen.mode));
    say_number(host, b" OVER ", u64::from(screen.overlay));
    say_flag(host, b" DISPLAY ", screen.display);
    say_flag(host, b"\nCURSOR ", settings.shown);
    say_number(host, b" ", u64::from(screen.row));
    say_number(host, b" ", u64::from(screen.column));
    say(host, b"\n");
}

fn say_icons(host: &Host, i: &Icons) {
    say(host, b"ICONS");
    for n in [i.s, i.u, i.f, i.r, i.p, i.w] {
        say_number(host, b" ", u64::from(n));
    }
    say(host, b"\n");
}

fn say_volume(host: &Host, volume: &Volume) {
    say_number(host, b"VOLUME ", u64::from(volume.which));
    say_number(host, b" ", u64::from(volume.level));
    say_flag(host, b" ", volume.mute);
    say_flag(host, b" ", volume.hidden);
    say(host, b"\n");
}

fn say_fields(host: &Host, r: &Record) {
    say_screen(host, &r.settings);
    say_text(host, &r.text);
    say_label(host, b"LEFT ", &r.settings.left);
    say_label(host, b"RIGHT ", &r.settings.right);
    say_icons(host, &r.settings.icons);
    say_volume(host, &r.settings.volume);
}

fn accepted(host: &Host) -> bool {
    program::accepts(
        host,
        b"list_screen",
        b"usage: ./run list_screen [--sister] [FILE]\n\
        Reads a stream from FILE, or from standard input without one, and prints the fields of the screen.\n\
        --sister reads the frames of the sister handset (AN1900); without it those of AN1901.\n",
        b"--sister\n",
        true,
    )
}

// The record's own edition decides which frames are read.
fn power_on_given(host: &Host) -> Record {
    if program::is_given(host, b"--sister\n") {
        Record::sister_power_on()
    } else {
        Record::power_on()
    }
}

fn list(host: &Host, input: &mut Input) {
    let heard = stream_input::hear(input, power_on_given(host));
    if heard.failed {
        program::complain_of(host, b"list_screen", input);
        return;
    }
    say_number(host, b"REPLIES ", heard.replies);
    say(host, b"\n");
    say_fields(host, &heard.record);
}

fn main(rt: HostRuntime) {
    let host = Host::new(rt);
    if accepted(&host) {
        if let Some(mut input) = program::open_input(&host, b"list_screen") {
            list(&host, &mut input);
        }
    }
}
