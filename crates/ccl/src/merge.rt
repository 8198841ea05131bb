// Two lists of keys, head office's and the terminal's own, become one (document 02, request 4). Both must ascend
// strictly; then the merged list does too.
ghost use Rattle.std.specs.Prelude.{◌≡◌, ◌≤◌, ◌∷◌, ◌++◌, length, MatchOption};
ghost use Rattle.common.specs.Lists.{over_front};
ghost use Rattle.ccl.specs.Merge.{ascending, merged, merge_number, merge_never_zero, merge_answer, merge_of, merged_after};

use common::refusal::Numbered;

// Why two lists are not merged.
#[derive(Clone, Copy, Debug, PartialEq, Eq)]
pub enum MergeError {
    // a list does not ascend strictly
    NotAscending = 25,
    // the places are fewer than the merged keys
    TooFewPlaces = 26,
}

impl Numbered for MergeError {
    ghost number_of = { merge_number };

    ghost never_zero = { merge_never_zero };

    fn number(self) -> u8 {
        self as u8
    }
}

// Whether each key is below the one after it. Every pair is looked at: there is no early exit.
fn ascends(keys: &[u64]) -> bool
    ensures { result ≡ ascending keys.now }
{
    keys.windows(2)
        .fold(true, |ok, pair| ok & (pair[0] < pair[1]))
}

// Two lists on the way along both: what is left of each. No Iterator, since the rest of both is copied whole after it:
// as one, to the end of both lists, it took 12.5 million instructions for two lists of 150,000 keys where this takes
// 9.8. Clone and Copy alone: nothing compares or prints one.
#[derive(Clone, Copy)]
struct Merged<'a> {
    a: &'a [u64],
    b: &'a [u64],
}

impl<'a> Merged<'a> {
    // The next key of the merged list, as long as both lists have a key left: the lower of their next keys, and where
    // they are the same key, it is used of both. Once a list is used up, what is left of the other follows.
    fn next(&mut self) -> Option<u64>
        ensures { MatchOption result (merged self.old.a.now self.old.b.now ≡ self.new.a.now ++ self.new.b.now) (λ key. merged self.old.a.now self.old.b.now ≡ key ∷ merged self.new.a.now self.new.b.now) }
    {
        let x = *self.a.first()?;
        let y = *self.b.first()?;
        if x < y {
            self.a = &self.a[1..];
            return Some(x);
        }
        self.a = &self.a[usize::from(x == y)..];
        self.b = &self.b[1..];
        Some(y)
    }
}

// How many keys the two lists have as one: a key of both counts once.
fn merged_count(a: &[u64], b: &[u64]) -> usize
    ensures { result ≡ length (merged a.now b.now) }
{
    let mut keys = Merged { a, b };
    let mut n: usize = 0;
    while let Some(_) = keys.next() {
        n += 1;
    }
    n + keys.a.len() + keys.b.len()
}

// The keys of the two lists as one, stored at the front of out.
fn put_merged(a: &[u64], b: &[u64], out: &mut [u64])
    requires { length (merged a.now b.now) ≤ length out.old }
    ensures { out.new ≡ over_front (merged a.now b.now) out.old }
{
    let mut keys = Merged { a, b };
    let mut n = 0;
    while let Some(key) = keys.next() {
        out[n] = key;
        n += 1;
    }
    let m = n + keys.a.len();
    let end = m + keys.b.len();
    out[n..m].copy_from_slice(keys.a);
    out[m..end].copy_from_slice(keys.b);
}

// Two lists made one: both are tested and the merged keys counted, and only then are they stored at the front of out.
#[tactic(auto, unfolding(crate::specs::Merge::merge_of, crate::specs::Merge::merged_after, crate::specs::Merge::merge_refusal))]
pub fn merge(a: &[u64], b: &[u64], out: &mut [u64]) -> Result<usize, MergeError>
    ensures result_value { merge_answer result ≡ merge_of a.now b.now (length out.old) }
    ensures out_after { out.new ≡ merged_after a.now b.now out.old }
{
    if !(ascends(a) & ascends(b)) {
        return Err(MergeError::NotAscending);
    }
    let n = merged_count(a, b);
    if out.len() < n {
        return Err(MergeError::TooFewPlaces);
    }
    put_merged(a, b, out);
    Ok(n)
}
