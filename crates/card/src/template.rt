// The SELECT answer (document 01, section Objects): one TLV 61, whose value is whole TLVs, nested ones too, and
// directly holds just one 4F.
ghost use Rattle.std.specs.Prelude.{◌≡◌};
ghost use Rattle.common.specs.Refusal.{number_in};
ghost use Rattle.card.specs.Template.{template_number, template_never_zero, template_of};
ghost use Rattle.card.specs.TemplateCode.{noted, walked};
ghost use Rattle.card.specs.declared.template.Aids.TheVariants.{Absent};

use crate::tlv;
use common::refusal::Numbered;
use common::slice;

// The tag of a template, and that of an application identifier in it; `template_tag` and `aid_tag` in the definitions.
pub const TEMPLATE_TAG: usize = 0x61;

pub const AID_TAG: usize = 0x4F;

// The least and the most bytes of the one 4F, and the levels left for the value of a template, which is depth 1 of 4;
// `held_least`, `held_most` and `levels_left` in the definitions.
const HELD_LEAST: usize = 1;

const HELD_MOST: usize = 16;

const LEVELS_LEFT: usize = 3;

// Document 01's cause of a malformed template; `malformed_template` in the definitions.
const MALFORMED_TEMPLATE: u8 = 19;

// The bytes are no template.
#[derive(Clone, Copy, Debug, PartialEq, Eq)]
pub struct MalformedTemplate;

impl Numbered for MalformedTemplate {
    ghost number_of = { template_number };

    ghost never_zero = { template_never_zero };

    fn number(self) -> u8 {
        MALFORMED_TEMPLATE
    }
}

// The 4Fs (application identifiers) that TLVs directly hold: none, just one, of 1 to 16 bytes, or any others.
#[derive(Clone, Copy, Debug, PartialEq, Eq)]
pub(crate) enum Aids {
    Absent,
    JustOne,
    Others,
}

impl Aids {
    // The 4Fs with one TLV more.
    #[tactic(auto, unfolding(crate::specs::TemplateCode::noted, crate::specs::TemplateCode::one_more_aid))]
    fn with(self, tag: usize, len: usize) -> Aids
        ensures { result ≡ noted self tag len }
    {
        if tag != AID_TAG {
            return self;
        }
        match self {
            Aids::Absent => {
                if (HELD_LEAST..=HELD_MOST).contains(&len) {
                    Aids::JustOne
                } else {
                    Aids::Others
                }
            }
            Aids::JustOne | Aids::Others => Aids::Others,
        }
    }
}

// The 4Fs that the TLVs of s directly hold; nothing where s is not whole TLVs to the depth left. Each nested value is
// walked in turn, with a level less left.
fn walk(s: &[u8], depth: usize) -> Option<Aids>
    ensures { result ≡ walked depth Absent s.now }
{
    let mut aids = Aids::Absent;
    let mut rest = s;
    while !rest.is_empty() {
        if depth == 0 {
            return None;
        }
        let header = tlv::next_header(rest)?;
        if header.nested {
            walk(slice::part(rest, header.start, header.len), depth - 1)?;
        }
        aids = aids.with(header.tag, header.len);
        rest = slice::after(rest, header.start + header.len);
    }
    Some(aids)
}

// Whether s is a template as document 01 asks.
pub fn template(s: &[u8]) -> Result<(), MalformedTemplate>
    ensures { number_in template_number result ≡ template_of s.now }
{
    let header = tlv::only(s, TEMPLATE_TAG).ok_or(MalformedTemplate)?;
    let aids = walk(slice::part(s, header.start, header.len), LEVELS_LEFT).ok_or(
        MalformedTemplate,
    )?;
    match aids {
        Aids::JustOne => Ok(()),
        Aids::Absent | Aids::Others => Err(MalformedTemplate),
    }
}
