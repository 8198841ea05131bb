// Field: the value of a field, as a part of the object buffer, and where it lies there.
ghost use Rattle.std.specs.Prelude.{◌≡◌, ◌+◌, ◌≤◌, length};
ghost use Rattle.card.specs.Object.{bytes_at};
ghost use Rattle.session.specs.Operation.{part_for, field_place, field_of};
ghost use Rattle.session.specs.Promise.{FieldPromise, PlacePromise};

use crate::figures::OBJECT;
use crate::state::Session;
use crate::tables;
use card::object;
use card::object::{EMPTY, Part};

// The bytes of a part.
#[tactic(auto, using(crate::proofs::CallLaws::part_cut))]
pub(crate) fn cut<'a>(s: &'a [u8], part: Part) -> &'a [u8]
    requires { part.start + part.len ≤ length s.now }
    ensures { result.now ≡ bytes_at s.now part }
{
    let start = part.start as usize;
    let end = start + part.len as usize;
    &s[start..end]
}

impl Session {
    // Where the field with a tag lies in its step's data.
    fn part_for(&self, step: u8, tag: u8) -> Part
        ensures { result ≡ part_for self.now step tag }
    {
        if step == 2 {
            self.card.step2
        } else {
            object::part_of(tables::kind_at(self.opening.mode, 1), self.card.step1, tag)
        }
    }

    // Where the value of the field with tag EE, 30 to 35, 3E or BC lies in an object buffer of so many bytes; the empty
    // part where the session is dead or out of range, the buffer has another size, the tag is another, or the field is
    // not yet read. A field that is absent has no bytes. The empty part and no Option: document 01 has it so.
    pub fn place(self, size: usize, tag: u8) -> Part
        ensures is { result ≡ field_place self size tag }
        ensures inside { result.start + result.len ≤ size }
        ensures for_every_list { PlacePromise self size tag result }
    {
        let Some(step) = tables::step_of_tag(tag) else {
            return EMPTY;
        };
        let read = tables::step_read(self.opening.mode, self.progress.step, step);
        if self.out_of_range() | (size != OBJECT) | !read {
            return EMPTY;
        }
        let part = self.part_for(step, tag);
        let base = tables::base_of(step) as u32;
        Part {
            start: base + part.start,
            len: part.len,
        }
    }

    // The value of the field with a tag; the empty part where `place` has it.
    pub fn field<'a>(self, object: &'a [u8], tag: u8) -> &'a [u8]
        ensures result_value { result.now ≡ field_of self object.now tag }
        ensures for_every_list { FieldPromise self object.now tag result.now }
    {
        cut(object, self.place(object.len(), tag))
    }
}
