// Dates (document 01, section Objects): eight ASCII digits YYYYMMDD of a real Gregorian date, year 0001 to 9999, as the
// number that they spell.
ghost use Rattle.std.specs.Prelude.{◌≡◌};
ghost use Rattle.card.specs.Date.{leap_year, days_in, real_date, date_number, date_never_zero, date_answer, date_of};

use common::refusal::Numbered;

// The bytes of field 35, a digit each; `date_digits` in the definitions.
pub(crate) const DATE_DIGITS: usize = 8;

// Document 01's cause of an ill-formed date; `ill_formed_date` in the definitions.
pub const ILL_FORMED_DATE: u8 = 22;

// The bytes are no real date.
#[derive(Clone, Copy, Debug, PartialEq, Eq)]
pub struct UnrealDate;

impl Numbered for UnrealDate {
    ghost number_of = { date_number };

    ghost never_zero = { date_never_zero };

    fn number(self) -> u8 {
        ILL_FORMED_DATE
    }
}

fn leap_year(y: u32) -> bool
    ensures { result ≡ leap_year y }
{
    (y % 4 == 0) & ((y % 100 != 0) | (y % 400 == 0))
}

fn days_in(y: u32, m: u32) -> u32
    ensures { result ≡ days_in y m }
{
    match m {
        2 => { if leap_year(y) { 29 } else { 28 } }
        4 | 6 | 9 | 11 => 30,
        _ => 31,
    }
}

// Whether n is YYYYMMDD of a real date.
pub fn real(n: u32) -> bool
    ensures { result ≡ real_date n }
{
    let y = n / 10000;
    let m = n / 100 % 100;
    let d = n % 100;
    // by two tests each: with `contains` of three ranges the proof did not close in two tries
    (1 <= y) & (y <= 9999) & (1 <= m) & (m <= 12) & (1 <= d) & (d <= days_in(y, m))
}

// The date that eight ASCII digits spell, as the number YYYYMMDD.
pub fn read(s: &[u8]) -> Result<u32, UnrealDate>
    ensures { date_answer result ≡ date_of s.now }
{
    let Ok(digits) = <[u8; DATE_DIGITS]>::try_from(s) else {
        return Err(UnrealDate);
    };
    // a loop and no fold: a fold's closure would have to be called with any sum, and some overflow
    let mut n: u32 = 0;
    for digit in &digits {
        n = n * 10 + u32::from(*digit % 16);
    }
    if digits.iter().all(|b| b.is_ascii_digit()) && real(n) {
        Ok(n)
    } else {
        Err(UnrealDate)
    }
}
