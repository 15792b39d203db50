// A part of a text up to a separator, and what follows.
ghost use Rattle.std.specs.Prelude.{◌≡◌, Some, None, MatchOption, ◌==◌, position};
ghost use Rattle.cuts.specs.Cuts.{front, after};

// The index of the first `sep`.
fn find(s: &[u8], sep: u8) -> Option<usize>
    ensures { result ≡ position (λ b. b == sep) s.now }
{
    s.iter().position(|b| *b == sep)
}

// What stands before the first `sep`, and what stands after it, where there is one.
pub fn cut(s: &[u8], sep: u8) -> (&[u8], Option<&[u8]>)
    ensures front { result.0.now ≡ front sep s.now }
    ensures after { MatchOption result.1 (after sep s.now ≡ None) (λ t. after sep s.now ≡ Some t.now) }
{
    match find(s, sep) {
        Some(at) => (&s[..at], Some(&s[at + 1..])),
        None => (s, None),
    }
}
