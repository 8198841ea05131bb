// Document 01's tables by mode, step, check and verdict kind, with request 7 of document 02. Mode, kind and step are
// u8: any byte may come, or stand in a session, and refusals 1, 4 and 10 are of these. A check is a u8 too: it counts a
// place among the outcomes, and a stamp shows its number as the cause. So two functions here ask for one from 1 to 7.
ghost use Rattle.std.specs.Prelude.{◌≡◌, ◌≤◌, ◌<◌};
ghost use Rattle.std.specs.Option.{unwrap_or, IfSome};
ghost use Rattle.session.specs.Tables.{since, checks, outcome_number, standing_number, mode_in_range, mode_opens, good_kind, needs, check_served, needed_at, needed_outcomes, outcome_of, with_outcome, lowest_from, cause_of, all_passed, standing_of, ends, reads_picture, has_step2, kind_at, step_after, base_of, capacity, step_read, step_of_tag};

use crate::figures::{
    CHECKS, KINDS, MODES, Outcome, PICTURE_CAPACITY, STEP_2_BASE, Standing, USUAL_CAPACITY,
};
use crate::state::Cause;
use card::object::{
    AGENCY_TAG, BIOMETRIC_TAG, BUFFER_LENGTH_TAG, DUNS_TAG, EXPIRY_TAG, FASCN_TAG, GUID_TAG, Kind,
    ORGANIZATION_TAG, SIGNATURE_TAG,
};

// The modes of a session in range.
pub(crate) fn mode_in_range(mode: u8) -> bool
    ensures { result ≡ mode_in_range since mode }
{
    matches!(mode, 1..=MODES)
}

// The modes that may be opened. Equal to mode_in_range today: document 01 says the two apart, and request 13 will part
// them (mode_opens).
pub(crate) fn mode_opens(mode: u8) -> bool
    ensures { result ≡ mode_opens since mode }
{
    mode_in_range(mode)
}

// The kinds of verdict that there are.
pub(crate) fn good_kind(kind: u8) -> bool
    ensures { result ≡ good_kind since kind }
{
    matches!(kind, 1..=KINDS)
}

// Whether the mode needs the check: mode 1 needs 1 to 4, mode 2 needs 3 to 5, mode 3 needs 1 to 4 and 6, mode 4 needs
// 1 to 6, mode 5 needs 1 to 4 and 7, mode 6 needs 1 to 5 and 7.
#[tactic(auto, unfolding(crate::specs::Tables::needs))]
pub(crate) fn needs(mode: u8, check: u8) -> bool
    ensures { result ≡ needs mode check }
{
    match mode {
        1 => matches!(check, 1..=4),
        2 => matches!(check, 3..=5),
        3 => matches!(check, 1..=4 | 6),
        4 => matches!(check, 1..=6),
        5 => matches!(check, 1..=4 | 7),
        _ => matches!(check, 1..=5 | 7),
    }
}

// The check that a verdict kind serves.
#[tactic(auto, unfolding(crate::specs::Tables::check_served))]
pub(crate) fn check_served(kind: u8) -> u8
    ensures is { result ≡ check_served kind }
    ensures place { (1 ≤ result) × (result ≤ checks) }
{
    match kind {
        1 => 1,
        2 => 2,
        3 => 5,
        4 => 6,
        _ => 7,
    }
}

// The outcome with which a check begins: 1 where the mode needs it, else 0.
#[tactic(auto, unfolding(crate::specs::Tables::needed_at))]
fn needed_at(mode: u8, i: usize) -> Outcome
    requires { i < checks }
    ensures { outcome_number result ≡ needed_at mode i }
{
    if needs(mode, (i + 1) as u8) {
        Outcome::Awaited
    } else {
        Outcome::Unneeded
    }
}

// The outcomes of a session freshly opened.
pub(crate) fn needed_outcomes(mode: u8) -> [u8; CHECKS]
    ensures { result ≡ needed_outcomes since mode }
{
    let mut o = [0u8; CHECKS];
    for (i, outcome) in o.iter_mut().enumerate() {
        *outcome = needed_at(mode, i).number();
    }
    o
}

// The outcome of a check.
pub(crate) fn outcome_of(o: [u8; CHECKS], check: u8) -> u8
    requires { (1 ≤ check) × (check ≤ checks) }
    ensures { result ≡ outcome_of o check }
{
    o[usize::from(check - 1)]
}

// The outcomes with that of one check set.
pub(crate) fn with_outcome(o: [u8; CHECKS], check: u8, v: Outcome) -> [u8; CHECKS]
    requires { (1 ≤ check) × (check ≤ checks) }
    ensures { result ≡ with_outcome o check (outcome_number v) }
{
    let mut out = o;
    out[usize::from(check - 1)] = v.number();
    out
}

// The lowest check with outcome 3 or 4; 0 where there is none. 0 and no Option: it is the byte of the stamp.
fn lowest_failed(o: [u8; CHECKS]) -> u8
    ensures { result ≡ lowest_from 1 o }
{
    let failed = |v: &u8| (*v == Outcome::Failed as u8) | (*v == Outcome::OtherCard as u8);
    match o.iter().position(failed) {
        Some(i) => (i + 1) as u8,
        None => 0,
    }
}

// The cause that a stamp shows: what arose in the reading, else the lowest failed check, else 0, the byte of the stamp.
#[tactic(auto, unfolding(crate::specs::Tables::cause_of))]
pub(crate) fn cause_of(arose: u8, o: [u8; CHECKS]) -> u8
    ensures { result ≡ cause_of arose o }
{
    if arose == 0 { lowest_failed(o) } else { arose }
}

// Whether each outcome that the mode needs is 2.
fn all_passed(mode: u8, o: [u8; CHECKS]) -> bool
    ensures { result ≡ all_passed mode o }
{
    o.iter().enumerate().all(|(i, outcome)| {
        !needs(mode, (i + 1) as u8) | (*outcome == Outcome::Passed as u8)
    })
}

// What a stamp says of the whole: rejected with a cause, granted where all is read and passed, else open.
#[tactic(auto, unfolding(crate::specs::Tables::standing_of))]
pub(crate) fn standing_of(mode: u8, step: u8, cause: u8, o: [u8; CHECKS]) -> Standing
    ensures { standing_number result ≡ standing_of mode step cause o }
{
    if cause != 0 {
        Standing::Rejected
    } else if (step == 3) && all_passed(mode, o) {
        Standing::Granted
    } else {
        Standing::Open
    }
}

// A cause of 16 to 22 ends the reading.
pub(crate) fn ends(cause: u8) -> bool
    ensures { result ≡ ends cause }
{
    (Cause::Status as u8..=Cause::Date as u8).contains(&cause)
}

// Whether step 2 of the mode reads the picture: modes 5 and 6.
pub(crate) fn reads_picture(mode: u8) -> bool
    ensures { result ≡ reads_picture mode }
{
    matches!(mode, 5 | 6)
}

// Whether the mode has step 2: modes 3 and 4, which read the fingers, and those that read the picture.
pub(crate) fn has_step2(mode: u8) -> bool
    ensures { result ≡ has_step2 mode }
{
    matches!(mode, 3 | 4) || reads_picture(mode)
}

// The object that a step reads.
pub(crate) fn kind_at(mode: u8, step: u8) -> Kind
    ensures { result ≡ kind_at mode step }
{
    match (step, mode) {
        (2, 5 | 6) => Kind::Picture,
        (2, _) => Kind::Fingers,
        (_, 2) => Kind::Unsigned,
        _ => Kind::Signed,
    }
}

// The step after one that ended well; 3 is the end.
pub(crate) fn step_after(mode: u8, step: u8) -> u8
    ensures { result ≡ step_after mode step }
{
    match step {
        0 => 1,
        1 if has_step2(mode) => 2,
        _ => 3,
    }
}

// Where a step's data begins in the object buffer.
#[tactic(auto, unfolding(crate::specs::Tables::base_of))]
pub(crate) fn base_of(step: u8) -> usize
    ensures { result ≡ base_of step }
{
    if step == 2 { STEP_2_BASE } else { 0 }
}

// The most that a step may hold: 16,384 bytes in step 2 of modes 5 and 6, else 4,096.
#[tactic(auto, unfolding(crate::specs::Tables::capacity))]
pub(crate) fn capacity(mode: u8, step: u8) -> usize
    ensures { result ≡ capacity mode step }
{
    if (step == 2) && reads_picture(mode) {
        PICTURE_CAPACITY
    } else {
        USUAL_CAPACITY
    }
}

// Whether step k has ended well in a session at a step: a later one is reached, and step 2 is one of the mode's.
pub(crate) fn step_read(mode: u8, step: u8, k: u8) -> bool
    ensures { result ≡ step_read mode step k }
{
    (k < step) && ((k != 2) || has_step2(mode))
}

// The step whose object has the field with a tag, where a field call may ask for the tag.
#[tactic(auto, unfolding(crate::specs::Tables::step_of_tag))]
pub(crate) fn step_of_tag(tag: u8) -> Option<u8>
    ensures is { unwrap_or result 0 ≡ step_of_tag tag }
    ensures found { IfSome result (λ k. 0 < k) }
{
    match tag {
        BUFFER_LENGTH_TAG
        | FASCN_TAG
        | AGENCY_TAG
        | ORGANIZATION_TAG
        | DUNS_TAG
        | GUID_TAG
        | EXPIRY_TAG
        | SIGNATURE_TAG => Some(1),
        BIOMETRIC_TAG => Some(2),
        _ => None,
    }
}
