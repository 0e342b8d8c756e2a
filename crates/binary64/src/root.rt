// The square root, correctly rounded.
ghost use Rattle.std.specs.Prelude.{◌≡◌, ◌+◌, ◌*◌, ◌^◌, ◌<◌, ◌≤◌, T};
ghost use Rattle.std.specs.Float.Ieee.Positive.{positive};
ghost use Rattle.binary64.specs.Root.{sqrt_of};

// The number m * 2^e.
#[derive(Clone, Copy)]
struct Scaled {
    m: u64,
    e: u64,
}

// m0 * 2^e0 with an m of 53 binary digits.
fn normalised(m0: u64, e0: u64) -> Scaled
    requires { (m0 < 2 ^ 53) × (2 ^ 53 ≤ m0 * 2 ^ e0) }
    ensures { (result.m * 2 ^ result.e ≡ m0 * 2 ^ e0) × (2 ^ 52 ≤ result.m) × (result.m < 2 ^ 53) × (result.e ≤ e0) }
{
    let mut m = m0;
    let mut e = e0;
    // A while: m is doubled until it is large enough; there is no range to go over.
    while m < 4503599627370496 {
        m = m * 2;
        e = e - 1;
    }
    Scaled { m, e }
}

// About the root of n, by std's. Only its range is proved: how near it is decides how often the loops of `root_and_rest` turn, and nothing else.
// So nothing rests on the processor's root.
fn estimated_root(n: u64) -> u64
    ensures { result < 2 ^ 32 }
{
    let estimate = ((n / 4096) as f64).sqrt() * 64.0;
    std::num::saturating_f64_to_u64(estimate).min(4294967295)
}

// A root cut to a whole number, and what the number has beyond its square.
#[derive(Clone, Copy)]
struct RootAndRest {
    root: u64,
    rest: u64,
}

// The root of n: the estimate, corrected.
fn root_and_rest(n: u64) -> RootAndRest
    ensures { (result.root * result.root + result.rest ≡ n) × (result.rest ≤ result.root * 2) }
{
    let mut root = estimated_root(n);
    // A while: the root is approached from above; there is no range to go over.
    while root * root > n {
        root = root - 1;
    }
    let mut rest = n - root * root;
    // A while: the root is approached from below.
    while rest > root * 2 {
        rest = rest - root * 2 - 1;
        root = root + 1;
    }
    RootAndRest { root, rest }
}

// The root of m * 4^27, cut to a whole number: its first 32 binary digits are the root of m * 4^5, and the other 22 are a quotient, or one less.
fn whole_root(m: u64) -> u64
    requires { (2 ^ 52 ≤ m) × (m < 2 ^ 54) }
    ensures { (result * result ≤ m * 2 ^ 54) × (m * 2 ^ 54 < (result + 1) * (result + 1)) }
{
    let first = root_and_rest(m * 1024);
    let more = first.rest * 4194304;
    let q = more / (first.root * 2);
    let u = more % (first.root * 2);
    let r = first.root * 4194304 + q;
    if u * 4194304 < q * q {
        return r - 1;
    }
    r
}

// The root of a number that is finite and above zero. x * 4^600 is m * 2^e, by the fields of its bits; with e even, its root has the digits of m's root and half the exponent.
fn root_above_zero(x: f64) -> f64
    requires { T (positive x) }
    ensures { result ≡ sqrt_of x }
{
    let bits = f64::to_bits(x);
    let field = bits / 4503599627370496;
    let mut m = bits % 4503599627370496;
    let mut e: u64 = 126;
    if field > 0 {
        m = m + 4503599627370496;
        e = field + 125;
    }
    let s = normalised(m, e);
    let half = s.e / 2;
    let r = whole_root(s.m * (1 + s.e % 2));
    f64::from_bits((half + 448) * 4503599627370496 + (r / 2 + r % 2))
}

// The square root, rounded once, as Rust's `sqrt`.
pub fn sqrt(x: f64) -> f64
    ensures { result ≡ sqrt_of x }
{
    if x > 0.0 {
        if x == f64::INFINITY {
            return x;
        }
        return root_above_zero(x);
    }
    if x == 0.0 {
        return x;
    }
    0.0 / 0.0
}
