// Marks: which of them are allowed. A set of them is a word in which mark k is digit k.
ghost use Rattle.std.specs.Prelude.{◌≡◌};
ghost use Rattle.records.specs.Marks.{allowing, allows as allows_in};

use crate::schema::Signature;

pub const MAX_MARKS: usize = 4;

// The signature with this set of marks.
pub fn allow(s: Signature, marks: u32) -> Signature
    ensures { result ≡ allowing marks s }
{
    Signature {
        classes: s.classes,
        attributes: s.attributes,
        constants: s.constants,
        loose: s.loose,
        marks,
    }
}

// Mark `k` is one of those that are allowed.
pub fn allows(s: Signature, k: usize) -> bool
    ensures { result ≡ allows_in s k }
{
    k < MAX_MARKS && (s.marks >> k) % 2 == 1
}
