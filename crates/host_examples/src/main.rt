// The exchanges of the sample hosts (hosts/host.c, hosts/host.rs), made by the calls of crate host, which host_c
// exports: document 01's example, a mode 4 reading cut into small answers, a session saved and taken up again, and a
// cancelled list read from text. The expected lines, in the file `stdout`, are written from the documents;
// tools/run_hosts compares what the two hosts print with them.
//
// The functions of this file make calls and write; the text of each line is made by a proved function (src/line.rt).
// The numbers are those of the C interface: 0 accepted, 20 a malformed line of a list, 24 one of a visual list.
#![tactic(auto)]

mod line;

use append::Text;
use common::slice;
use host::image::IMAGE;
use host::{cards, lists, sessions};
use session::figures::{ANSWER_MOST, OBJECT, STAMP};
use std::io::Write;

// The most bytes of a line, and of a piece of data that an answer has in the exchange with small answers.
const LINE_MOST: usize = 512;

const PIECE: usize = 7;

// The card's AID and the person's FASC-N, and what the card answers: its template, its unsigned object and its signed
// one, and its fingers.
const AID: &[u8] = b"\xA0\x00\x00\x03\x67\x20\x00\x00\x01\x01\x03";

const FASCN: &[u8] =
    b"\xD4\x32\x48\x58\x21\x0C\x2D\x31\x71\xB5\x25\xA1\x68\x5A\x08\xC9\x2A\xDE\x0A\x61\x84\x32\x48\x43\xE2";

const TEMPLATE: &[u8] = b"\x61\x08\x4F\x06\x20\x00\x00\x01\x01\x03";

const UNSIGNED: &[u8] =
    b"\x53\x27\x30\x19\xD4\x32\x48\x58\x21\x0C\x2D\x31\x71\xB5\x25\xA1\x68\x5A\x08\xC9\x2A\xDE\x0A\x61\x84\x32\x48\x43\xE2\x35\x0820110410\xFE\x00";

const SIGNED: &[u8] =
    b"\x53\x3E\x30\x19\xD4\x32\x48\x58\x21\x0C\x2D\x31\x71\xB5\x25\xA1\x68\x5A\x08\xC9\x2A\xDE\x0A\x61\x84\x32\x48\x43\xE2\x34\x10\x00\x11\x22\x33\x44\x55\x66\x77\x88\x99\xAA\xBB\xCC\xDD\xEE\xFF\x35\x0820301231\x3E\x03\xA1\xB2\xC3\xFE\x00";

const FINGERS: &[u8] = b"\x53\x0C\xBC\x08\x01\x02\x03\x04\x05\x06\x07\x08\xFE\x00";

fn say(rt: &HostRuntime, word: &[u8], numbers: &[u64], bytes: &[u8]) {
    let mut out = Text::new();
    line::add_line(&mut out, word, numbers, bytes);
    // where standard output takes no more, nothing can be said there
    let _taken = rt.stdout().write_all(out.as_bytes()).is_ok();
}

fn title(rt: &HostRuntime, word: &[u8]) {
    say(rt, word, &[], b"");
}

// A call that prints its number alone.
fn say_number(rt: &HostRuntime, word: &[u8], n: u8) {
    say(rt, word, &[n as u64], b"");
}

// A call that prints another number beside its own.
fn say_two(rt: &HostRuntime, word: &[u8], n: u8, m: usize) {
    say(rt, word, &[n as u64, m as u64], b"");
}

// A call that prints bytes where it is accepted.
fn say_bytes(rt: &HostRuntime, word: &[u8], n: u8, bytes: &[u8]) {
    say(rt, word, &[n as u64], if n == 0 { bytes } else { b"" });
}

fn sizes(rt: &HostRuntime) {
    let s = cards::gate_sizes();
    let numbers = [
        s.session as u64,
        s.object as u64,
        s.stamp as u64,
        s.command_most as u64,
        s.answer_most as u64,
        s.aid_least as u64,
        s.aid_most as u64,
        s.fascn as u64,
        s.digits as u64,
        s.line as u64,
    ];
    say(rt, b"sizes", &numbers, b"");
}

// An exchange with a card: the session as the host keeps it, the object buffer, and the keys of the cancelled cards,
// which each answer is lent.
#[derive(Drop)]
struct Exchange<'a> {
    rt: &'a HostRuntime,
    image: [u8; IMAGE],
    object: &'a mut [u8; OBJECT],
    cancelled: &'a [u64],
}

impl<'a> Exchange<'a> {
    // Before any call: the image of no session.
    fn new(
        rt: &'a HostRuntime,
        object: &'a mut [u8; OBJECT],
        cancelled: &'a [u64],
    ) -> Exchange<'a> {
        Exchange {
            rt,
            image: [0u8; IMAGE],
            object,
            cancelled,
        }
    }

    fn open(&mut self, mode: u8, date: u32) {
        let n = sessions::gate_open(&mut self.image, mode, date, AID);
        say_number(self.rt, b"open", n);
    }

    fn command(&mut self) {
        let mut out = [0u8; 22];
        let mut count = 0;
        let n = sessions::gate_command(&mut self.image, &mut out, &mut count);
        say_bytes(self.rt, b"command", n, slice::front(&out, count));
    }

    // An answer: data, then the two status bytes.
    fn send(&mut self, data: &[u8], status: &[u8; 2]) {
        let mut bytes = [0u8; ANSWER_MOST];
        let n = data.len().min(256);
        slice::store(&mut bytes, 0, slice::front(data, n));
        slice::store(&mut bytes, n, status);
        let answer = slice::front(&bytes, n + 2);
        let cancelled = self.cancelled;
        let object = &mut *self.object;
        let number = sessions::gate_answer(&mut self.image, object, answer, cancelled);
        say_number(self.rt, b"answer", number);
    }

    // The command, and an answer with the last of a step's data.
    fn send_last(&mut self, data: &[u8]) {
        self.command();
        self.send(data, b"\x90\x00");
    }

    // A step's data in pieces, each after its command. The status of each but the last says how many bytes are left.
    fn send_pieces(&mut self, data: &[u8]) {
        let mut left = data.len();
        for piece in data.chunks(PIECE) {
            left -= piece.len();
            if left == 0 {
                self.send_last(piece);
            } else {
                self.command();
                self.send(piece, &[0x61, (left % 256) as u8]);
            }
        }
    }

    fn verdict(&mut self, kind: u8, yes: u8) {
        let n = sessions::gate_verdict(&mut self.image, kind, yes, FASCN);
        say_number(self.rt, b"verdict", n);
    }

    fn preview(&self, kind: u8, yes: u8) {
        let mut out = [0u8; STAMP];
        let n = sessions::gate_preview(&self.image, kind, yes, FASCN, &mut out);
        say_bytes(self.rt, b"preview", n, &out);
    }

    fn stamp(&self) {
        let mut out = [0u8; STAMP];
        let n = sessions::gate_stamp(&self.image, &mut out);
        say_bytes(self.rt, b"stamp", n, &out);
    }

    fn field(&self, tag: u8, word: &[u8]) {
        let place = sessions::gate_field(&self.image, self.object, tag);
        let value = slice::part(self.object, place.start, place.length);
        say(
            self.rt,
            word,
            &[place.start as u64, place.length as u64],
            value,
        );
    }

    fn saved(&self) {
        say(self.rt, b"session", &[], &self.image);
    }
}

// Document 01's example.
fn example(rt: &HostRuntime, object: &mut [u8; OBJECT]) {
    title(rt, b"document 01's example");
    let mut gate = Exchange::new(rt, object, &[]);
    gate.stamp();
    gate.open(9, 20110410);
    gate.open(2, 20110410);
    gate.command();
    gate.command();
    gate.send(TEMPLATE, b"\x90\x00");
    gate.send_last(UNSIGNED);
    gate.field(0x30, b"field 30");
    gate.field(0x34, b"field 34");
    gate.field(0x35, b"field 35");
    gate.preview(3, 1);
    gate.verdict(3, 1);
    gate.verdict(3, 1);
    gate.stamp();
}

// A mode 4 reading cut into small answers.
fn small_answers(rt: &HostRuntime, object: &mut [u8; OBJECT]) {
    title(rt, b"mode 4 in small answers");
    let mut gate = Exchange::new(rt, object, &[1, 2]);
    gate.open(4, 20260101);
    gate.send_pieces(TEMPLATE);
    gate.send_pieces(SIGNED);
    gate.send_pieces(FINGERS);
    gate.field(0x30, b"field 30");
    gate.field(0x34, b"field 34");
    gate.field(0x35, b"field 35");
    gate.field(0x3E, b"field 3E");
    gate.field(0xBC, b"field BC");
    for kind in 1..=4 {
        gate.verdict(kind, 1);
        gate.stamp();
    }
}

// A session saved in the middle of step 1, and taken up again.
fn taken_up(rt: &HostRuntime, object: &mut [u8; OBJECT]) {
    title(rt, b"saved and taken up again");
    let mut gate = Exchange::new(rt, object, &[]);
    gate.open(1, 20260101);
    gate.saved();
    gate.send_last(TEMPLATE);
    gate.command();
    gate.send(slice::front(SIGNED, 40), &[0x61, 24]);
    gate.command();
    gate.saved();
    let copy = gate.image;
    gate.image = [0u8; IMAGE];
    gate.stamp();
    gate.image = copy;
    gate.send(slice::after(SIGNED, 40), b"\x90\x00");
    gate.saved();
    gate.verdict(1, 0);
    gate.stamp();
    // a version that no image has
    gate.image[0] = 2;
    gate.stamp();
}

fn say_keys(rt: &HostRuntime, keys: &[u64]) {
    for key in keys {
        say(rt, b"key", &[*key], b"");
    }
}

fn read(rt: &HostRuntime, text: &[u8], keys: &mut [u64]) {
    let mut count = 0;
    let mut line = 0;
    let n = lists::gate_list_read(text, keys, &mut count, &mut line);
    match n {
        0 => {
            say_two(rt, b"read", n, count);
            say_keys(rt, &keys[..count.min(keys.len())]);
        }
        20 => say_two(rt, b"read", n, line),
        _ => say_number(rt, b"read", n),
    }
}

fn write(rt: &HostRuntime, keys: &[u64], out: &mut [u8]) {
    let mut count = 0;
    let n = lists::gate_list_write(keys, out, &mut count);
    if n == 0 {
        say(rt, b"write", &[n as u64, count as u64], out);
    } else {
        say_number(rt, b"write", n);
    }
}

fn merge(rt: &HostRuntime, official: &[u64], own: &[u64], out: &mut [u64]) {
    let mut count = 0;
    let n = lists::gate_list_merge(official, own, out, &mut count);
    if n == 0 {
        say_two(rt, b"merge", n, count);
        say_keys(rt, &out[..count.min(out.len())]);
    } else {
        say_number(rt, b"merge", n);
    }
}

fn look_up(rt: &HostRuntime, typed: &[u8], text: &[u8]) {
    let mut listed = 0;
    let mut line = 0;
    let n = lists::gate_cin_look_up(typed, text, &mut listed, &mut line);
    match n {
        0 => say_two(rt, b"look up", n, listed),
        24 => say_two(rt, b"look up", n, line),
        _ => say_number(rt, b"look up", n),
    }
}

// The digits of a FASC-N, its key, and the FASC-N that they pack to.
fn fascn_calls(rt: &HostRuntime) {
    let mut digits = [0u8; 32];
    let n = cards::gate_unpack(FASCN, &mut digits);
    say_bytes(rt, b"unpack", n, &digits);
    say(rt, b"key", &[cards::gate_key(&digits)], b"");
    let mut packed = [0u8; 25];
    let m = cards::gate_pack(&digits, &mut packed);
    say_bytes(rt, b"pack", m, &packed);
}

fn merge_calls(rt: &HostRuntime) {
    let mut four = [0u64; 4];
    let mut two = [0u64; 2];
    merge(rt, &[7, 9], &[8, 9], &mut four);
    merge(rt, &[7, 9], &[8, 9], &mut two);
    merge(rt, &[9, 7], &[8], &mut four);
}

fn visual_calls(rt: &HostRuntime) {
    let text = b"(cin (12345678))\n";
    look_up(rt, b"12345678", text);
    look_up(rt, b"7", text);
    look_up(rt, b"12x", text);
    look_up(rt, b"7", b"(cin (12345678))");
}

// A cancelled list read from text and written again, the calls on lists and on digits, and a reading that is lent the
// keys that were read.
fn list_from_text(rt: &HostRuntime, object: &mut [u8; OBJECT]) {
    title(rt, b"a cancelled list from text");
    let text =
        b"(card (0000 0000 000007) (0 0))\n(card (1341 0001 987654) (1 1))\n(card (9999 9999 999999) (9 9))\n";
    let malformed =
        b"(card (0000 0000 000007) (0 0))\n(card (1x41 0001 987654) (1 1))\n(card (9999 9999 999999) (9 9))\n";
    let mut keys = [0u64; 3];
    read(rt, text, &mut keys);
    read(rt, text, &mut [0u64; 2]);
    read(rt, malformed, &mut keys);
    write(rt, &keys, &mut [0u8; 96]);
    write(rt, &keys, &mut [0u8; 95]);
    fascn_calls(rt);
    merge_calls(rt);
    visual_calls(rt);
    let mut gate = Exchange::new(rt, object, &keys);
    gate.open(2, 20110410);
    gate.send_last(TEMPLATE);
    gate.send_last(UNSIGNED);
    gate.stamp();
}

fn main(host: HostRuntime) {
    let rt = &host;
    let mut object = [0u8; OBJECT];
    sizes(rt);
    example(rt, &mut object);
    small_answers(rt, &mut object);
    taken_up(rt, &mut object);
    list_from_text(rt, &mut object);
}
