// Strings in which decimal digits stand at given places.
ghost use Rattle.std.specs.Prelude.{◌≡◌};
ghost use Rattle.text.specs.Form.{between};

// Whether each byte of s lies between those of the two strings, and there are as many. Every byte is looked at: there
// is no early exit.
pub fn between(lowest: &[u8], highest: &[u8], s: &[u8]) -> bool
    ensures { result ≡ between lowest.now highest.now s.now }
{
    let as_long = (s.len() == lowest.len()) & (s.len() == highest.len());
    as_long
        && s.iter().zip(lowest).zip(highest).fold(
            true,
            |ok, ((x, low), high)| ok & ((low <= x) & (x <= high)),
        )
}
