// The Card Identification Number (CIN), printed on the back of a card (document 001): the number that a guard types,
// and that a visual list holds (document 02, request 2).
ghost use Rattle.std.specs.Prelude.{◌≡◌};
ghost use Rattle.common.specs.Decimal.{spelled};
ghost use Rattle.ccl.specs.Cin.{entry_number, entry_never_zero, entry_answer, entry_of};
ghost use Rattle.ccl.specs.VisualCode.{leading_digits};

use common::refusal::Numbered;
use common::slice;

// Document 02's CIN. A type of its own, whose number no other crate reads or sets: it comes from an entry, and is never
// compared with a FASC-N key. Hence no Debug, which would show the number, and no PartialEq, which would tell it.
#[derive(Clone, Copy)]
pub struct Cin(pub(crate) u64);

// The most digits of a CIN; `longest_cin` in the definitions.
pub(crate) const LONGEST_CIN: usize = 10;

// Document 02's number of an entry that is no CIN; `bad_entry` in the definitions.
pub const BAD_ENTRY: u8 = 23;

// The entry is no CIN. A type of its own: From and `?` tell it from a malformed line.
#[derive(Clone, Copy, Debug, PartialEq, Eq)]
pub struct BadEntry;

impl Numbered for BadEntry {
    ghost number_of = { entry_number };

    ghost never_zero = { entry_never_zero };

    fn number(self) -> u8 {
        BAD_ENTRY
    }
}

// The digits that some bytes begin with, as far as one more than a CIN may have: how many they are, and the number that
// they spell. That number is a CIN's where the digits are 1 to 10.
#[derive(Clone, Copy, Debug, PartialEq, Eq)]
pub(crate) struct Digits {
    pub count: usize,
    pub number: u64,
}

pub(crate) fn leading_digits(s: &[u8]) -> Digits
    ensures count { result.count ≡ leading_digits s.now }
    ensures spells { result.number ≡ spelled result.count s.now }
{
    let front = slice::front(s, LONGEST_CIN + 1);
    let mut number = 0;
    for (count, x) in front.iter().enumerate() {
        if !x.is_ascii_digit() {
            return Digits { count, number };
        }
        number = number * 10 + u64::from(*x % 16);
    }
    Digits {
        count: front.len(),
        number,
    }
}

// The CIN that a guard typed.
pub fn read_entry(typed: &[u8]) -> Result<Cin, BadEntry>
    ensures { entry_answer result ≡ entry_of typed.now }
{
    let digits = leading_digits(typed);
    let n = digits.count;
    if (1..=LONGEST_CIN).contains(&n) & (n == typed.len()) {
        Ok(Cin(digits.number))
    } else {
        Err(BadEntry)
    }
}
