// Whether two declared constants that are to differ have been found to be one object. Their nodes stand in a row from `first`.
ghost use Rattle.std.specs.Prelude.{◌≡◌, ◌+◌, ◌<◌, ◌≤◌, length};
ghost use Rattle.records.specs.Layout.{word_digits};
ghost use Rattle.records.specs.State.{repeats};
ghost use Rattle.primary.specs.Clash.{rep_at, clashes_in};

use records::schema::{Signature, differ};

// Constant `b` clashes with an earlier one.
fn clashes_with(s: Signature, reps: &[u32], first: usize, b: usize) -> bool
    requires { (first + b < length reps.now) × (b < word_digits) }
    ensures { result ≡ repeats s (rep_at reps.now first) b }
{
    (0..b).any(|a| differ(s, b, a) & (reps[first + a] == reps[first + b]))
}

pub fn clashes(s: Signature, reps: &[u32], first: usize) -> bool
    requires { (first + s.constants ≤ length reps.now) × (s.constants ≤ word_digits) }
    ensures { result ≡ clashes_in s reps.now first }
{
    (0..s.constants).any(|b| clashes_with(s, reps, first, b))
}
