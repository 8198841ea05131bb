// The text of what the merge of two lists of keys says.
#![tactic(auto, using(append::proofs::AppendLaws::texts), unfolding(crate::specs::MergeText::count_text, crate::specs::MergeText::merged_text, crate::specs::MergeText::lists_text, crate::specs::MergeText::merge_text, crate::specs::MergeText::is_merge))]

ghost use Rattle.std.specs.Prelude.{◌≡◌, ◌∷◌, ◌++◌, ◌≤◌, length};
ghost use Rattle.ccl.specs.Merge.{merge_answer};
ghost use Rattle.append.specs.Append.{number_text};
ghost use Rattle.vectors.specs.MergeText.{most_keys, key_in, keys_in, is_merge, places_word, places_text, count_text, merged_text, lists_text, merge_text};
ghost use Rattle.vectors.specs.Out.{with_text};

use crate::{Out, refusal};
use ccl::merge;
use ccl::merge::MergeError;
use common::slice;

// The bytes of a key; `key_size` in the definitions.
const KEY_BYTES: usize = 8;

// The most keys of a list, and the most places; `most_keys` in the definitions.
const KEYS: usize = 32;

// The first key of s, the highest byte first; a byte past the end counts as 00.
fn key_in(s: &[u8]) -> u64
    ensures { result ≡ key_in s.now }
{
    u64::from_be_bytes([
        slice::byte(s, 0),
        slice::byte(s, 1),
        slice::byte(s, 2),
        slice::byte(s, 3),
        slice::byte(s, 4),
        slice::byte(s, 5),
        slice::byte(s, 6),
        slice::byte(s, 7),
    ])
}

// As many keys of s as a list may have, 0 past the end.
fn keys_in(s: &[u8]) -> [u64; KEYS]
    ensures { result ≡ keys_in s.now }
{
    let mut keys = [0u64; KEYS];
    for (i, key) in keys.iter_mut().enumerate() {
        *key = key_in(slice::after(s, KEY_BYTES * i));
    }
    keys
}

// The bytes s are two counts, the keys of two lists, and some places: no bytes are left over, and neither the keys of a
// list nor the places are too many. A bool: `is_merge` is the definitions' test, and the text reads the counts again.
fn is_merge(s: &[u8]) -> bool
    ensures { result ≡ is_merge s.now }
{
    let a = usize::from(slice::byte(s, 0));
    let b = usize::from(slice::byte(s, 1));
    let keys = s.len() / KEY_BYTES;
    s.len() % KEY_BYTES == 2 && a <= KEYS && b <= KEYS && a + b <= keys && keys <= a + b + KEYS
}

// A key, with a space in front. host_examples has the same for its own size of a text: a method of Text would serve
// these two programs alone.
fn add_key(out: &mut Out, key: u64)
    ensures { out.new ≡ with_text out.old (0x20 ∷ number_text key) }
{
    out.add(b" ");
    out.add_decimal(key);
}

// The places, each with a space in front.
fn add_places(out: &mut Out, places: &[u64])
    ensures { out.new ≡ with_text out.old (places_word ++ places_text (length places.now) places.now) }
{
    out.add(b", the places");
    for place in places {
        add_key(out, *place);
    }
}

// `N keys`, or document 02's number of a refusal.
fn add_count(out: &mut Out, answer: Result<usize, MergeError>)
    ensures { out.new ≡ with_text out.old (count_text (merge_answer answer)) }
{
    match answer {
        Ok(n) => {
            out.add_decimal(n as u64);
            out.add(b" keys");
        }
        Err(error) => refusal::add_refused(out, error),
    }
}

// What merge answers of two lists and some places, and the places then.
fn add_merged(out: &mut Out, a: &[u64], b: &[u64], places: &mut [u64])
    ensures { out.new ≡ with_text out.old (merged_text a.now b.now places.old) }
{
    let answer = merge::merge(a, b, places);
    add_count(out, answer);
    add_places(out, places);
}

// The same of the first n keys of s, the m keys after them, and the places after those.
fn add_lists(out: &mut Out, n: usize, m: usize, room: usize, s: &[u8])
    requires { (n ≤ most_keys) × (m ≤ most_keys) × (room ≤ most_keys) }
    ensures { out.new ≡ with_text out.old (lists_text n m room s.now) }
{
    let a = keys_in(s);
    let b = keys_in(slice::after(s, KEY_BYTES * n));
    let mut places = keys_in(slice::after(s, KEY_BYTES * (n + m)));
    add_merged(out, &a[..n], &b[..m], &mut places[..room]);
}

// What merge says; the line spells how many keys each list has, their keys, and the places before.
pub(crate) fn add_merge(out: &mut Out, s: &[u8])
    ensures { out.new ≡ with_text out.old (merge_text s.now) }
{
    if !is_merge(s) {
        return refusal::add_no_vector(out);
    }
    let n = usize::from(slice::byte(s, 0));
    let m = usize::from(slice::byte(s, 1));
    let room = s.len() / KEY_BYTES - (n + m);
    add_lists(out, n, m, room, slice::after(s, 2));
}
