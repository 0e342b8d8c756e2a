// Names in lists of bytes.
ghost use Rattle.std.specs.Prelude.{◌≡◌, ◌≤◌, length};
ghost use Rattle.openrdson_core.specs.Bytes as spec;

// Whether a and b hold the same bytes.
#[tactic(auto, using(crate::proofs::ByteLaws::same_is))]
pub fn is_same(a: &[u8], b: &[u8]) -> bool
    ensures { result ≡ spec.same a.now b.now }
{
    a == b
}

// Whether every byte is zero.
pub fn is_zero(c: &[u8]) -> bool
    ensures { result ≡ spec.zeros c.now }
{
    c.iter().all(|b| *b == 0)
}

// How many bytes stand before the first zero.
pub fn name_length(c: &[u8]) -> usize
    ensures value { result ≡ spec.name_length c.now }
    ensures within { result ≤ length c.now }
{
    c.iter().position(|b| *b == 0).unwrap_or(c.len())
}

// Whether a cell holds a name: at least one nonzero byte, then zeros.
#[tactic(auto, unfolding(crate::specs::Bytes::name_ok))]
pub fn is_name(c: &[u8]) -> bool
    ensures { result ≡ spec.name_ok c.now }
{
    let n = name_length(c);
    n > 0 && is_zero(&c[n..])
}

// Whether s starts with p. Byte by byte, since most places of a text differ in the first one.
pub fn starts_with(s: &[u8], p: &[u8]) -> bool
    ensures { result ≡ spec.starts_with s.now p.now }
{
    p.len() <= s.len() && (0..p.len()).all(|i| s[i] == p[i])
}

// Whether p stands somewhere in s.
pub fn contains(s: &[u8], p: &[u8]) -> bool
    ensures { result ≡ spec.contains s.now p.now }
{
    (0..s.len()).any(|i| starts_with(&s[i..], p))
}
