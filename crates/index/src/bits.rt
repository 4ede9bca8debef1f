// A set of numbers as a slice of 64-bit words: number b is bit b % 64 of word b / 64.
ghost use Rattle.std.specs.Prelude.{◌≡◌, ◌/◌, ◌<◌, length};
ghost use Rattle.index.specs.BitSet.{word_bits, bit_at, Inserted};

pub const WORD_BITS: usize = 64;

// Whether number `b` is in the set. A number past the end is in no set, so no caller has to show a bound.
pub fn has(ws: &[u64], b: usize) -> bool
    ensures { result ≡ bit_at ws.now b }
{
    ws.get(b / WORD_BITS)
        .is_some_and(|word| (*word >> (b % WORD_BITS)) % 2 == 1)
}

pub fn insert(ws: &mut [u64], b: usize)
    requires { b / word_bits < length ws.old }
    ensures { Inserted ws.old b ws.new }
{
    ws[b / WORD_BITS] |= 1 << (b % WORD_BITS);
}
