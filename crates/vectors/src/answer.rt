// The calls of a vector's line, by name, and what each answers. A call is a row. To add one: a variant of VectorCall, a
// row at the end of ROWS, an arm of answer, and a function that writes its text, in the file of its subject; in
// specs/Answer.antt a row at the end of `call_rows` and a row of `answer_text`, and the definition of that text in the
// file of its subject; and a proof of the function that writes the text.
#![tactic(auto, unfolding(crate::specs::Answer::answer_text))]

mod calls;
mod command;
pub(crate) mod fascn;
mod merge;
mod object;
mod visual;

ghost use Rattle.std.specs.Prelude.{◌≡◌};
ghost use Rattle.vectors.specs.Answer.{call_named, answer_text};
ghost use Rattle.vectors.specs.Out.{with_text};

use crate::Out;
use card::command::FIRST_LE;
use card::object::Kind;
use common::slice;

// A call. A number is the room of the buffer that a command is lent.
#[derive(Clone, Copy, Debug, PartialEq, Eq)]
pub(crate) enum VectorCall {
    Unpack,
    Pack,
    Header,
    Template,
    Date,
    Real,
    Object(Kind),
    Select(usize),
    SelectAgain(usize),
    GetData(Kind, usize),
    GetResponse(usize),
    Status,
    Cin,
    Merge,
    Calls,
}

// The names; `call_rows` in the definitions. A table and no `match name`: tried, its 48 goals stopped at the search's
// limits.
const ROWS: [(&[u8], VectorCall); 24] = [
    (b"unpack", VectorCall::Unpack),
    (b"pack", VectorCall::Pack),
    (b"header", VectorCall::Header),
    (b"template", VectorCall::Template),
    (b"date", VectorCall::Date),
    (b"real", VectorCall::Real),
    (b"signed", VectorCall::Object(Kind::Signed)),
    (b"unsigned", VectorCall::Object(Kind::Unsigned)),
    (b"fingers", VectorCall::Object(Kind::Fingers)),
    (b"picture", VectorCall::Object(Kind::Picture)),
    (b"select", VectorCall::Select(24)),
    (b"shortselect", VectorCall::Select(14)),
    (b"selectagain", VectorCall::SelectAgain(24)),
    (b"getsigned", VectorCall::GetData(Kind::Signed, 12)),
    (b"getunsigned", VectorCall::GetData(Kind::Unsigned, 12)),
    (b"getfingers", VectorCall::GetData(Kind::Fingers, 12)),
    (b"getpicture", VectorCall::GetData(Kind::Picture, 12)),
    (b"shortgetsigned", VectorCall::GetData(Kind::Signed, 10)),
    (b"getresponse", VectorCall::GetResponse(6)),
    (b"shortgetresponse", VectorCall::GetResponse(4)),
    (b"status", VectorCall::Status),
    (b"cin", VectorCall::Cin),
    (b"merge", VectorCall::Merge),
    (b"calls", VectorCall::Calls),
];

// The call of a name.
pub(crate) fn call_of(name: &[u8]) -> Option<VectorCall>
    ensures { result ≡ call_named name.now }
{
    for (word, call) in ROWS {
        if slice::same(name, word) {
            return Some(call);
        }
    }
    None
}

// What a call says of the bytes s: an arm for each.
pub(crate) fn answer(out: &mut Out, call: VectorCall, s: &[u8])
    ensures { out.new ≡ with_text out.old (answer_text call s.now) }
{
    match call {
        VectorCall::Unpack => fascn::add_unpack(out, s),
        VectorCall::Pack => fascn::add_pack(out, s),
        VectorCall::Header => object::add_header(out, s),
        VectorCall::Template => object::add_template(out, s),
        VectorCall::Date => object::add_date(out, s),
        VectorCall::Real => object::add_real(out, s),
        VectorCall::Object(kind) => object::add_object(out, kind, s),
        VectorCall::Select(room) => command::add_select(out, FIRST_LE, room, s),
        VectorCall::SelectAgain(room) => command::add_select_again(out, room, s),
        VectorCall::GetData(kind, room) => command::add_get_data(out, kind, room, s),
        VectorCall::GetResponse(room) => command::add_get_response(out, room, s),
        VectorCall::Status => command::add_status(out, s),
        VectorCall::Cin => visual::add_looked_up(out, s),
        VectorCall::Merge => merge::add_merge(out, s),
        VectorCall::Calls => calls::add_calls(out, s),
    }
}
