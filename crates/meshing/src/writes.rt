// Writes of a list, of one value over and over, and of eight entries. For callers that have found room: how much goes with what is written.
ghost use Rattle.std.specs.Prelude.{◌≡◌, ◌+◌, ◌≤◌, length};
ghost use Rattle.lists.specs.Lists.{put, elems};

// Copies a list into another, from place `at` on.
#[tactic(auto, using(crate::proofs::Placed::mid_put))]
pub fn copy<T: Copy>(l: &[T], out: &mut [T], at: usize)
    requires { at + length l.now ≤ length out.old }
    ensures { out.new ≡ put out.old at l.now }
{
    out[at..at + l.len()].copy_from_slice(l);
}

// Writes a value n times from place `at` on. Not by std's `fill`: it writes clones, and `Copy` does not say that a `clone` cannot fail or is the same value.
#[tactic(auto, using(lists::proofs::Fills::no_elems, lists::proofs::Fills::one_elem, lists::proofs::Fills::all_elems))]
pub fn fill<T: Copy>(out: &mut [T], at: usize, n: usize, value: T)
    requires { at + n ≤ length out.old }
    ensures { out.new ≡ put out.old at (elems n (λ _. value)) }
{
    for i in 0..n {
        out[at + i] = value;
    }
}

// Writes eight entries from place `at` on.
#[tactic(auto, using(crate::proofs::Placed::mid_put))]
pub fn write_eight<T: Copy>(out: &mut [T], at: usize, entries: [T; 8])
    requires { at + 8 ≤ length out.old }
    ensures { out.new ≡ put out.old at entries }
{
    out[at..at + 8].copy_from_slice(&entries);
}
