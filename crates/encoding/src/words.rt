// Words copied to the start of lent words.
ghost use Rattle.std.specs.Prelude.{◌≡◌, ◌++◌, ◌≤◌, length, drop};

pub fn put(words: &[u16], lent: &mut [u16])
    requires { length words.now ≤ length lent.old }
    ensures { lent.new ≡ words.now ++ drop (length words.now) lent.old }
{
    lent[..words.len()].copy_from_slice(words);
}
