// The two words of a fact (specs/Encoding of records), written for all facts: first the left words, then the right words.
ghost use Rattle.std.specs.Prelude.{◌≡◌, ℕ, map, ◌++◌, ◌*◌, ◌≤◌, length, drop};
ghost use Rattle.records.specs.Encoding.{left_word as left_of, right_word as right_of};

use records::state::WORD_PART;

fn left_word(fact: u32) -> u16
    ensures { result ≡ left_of fact }
{
    (fact as usize / WORD_PART) as u16
}

fn right_word(fact: u32) -> u16
    ensures { result ≡ right_of fact }
{
    (fact as usize % WORD_PART) as u16
}

// One word of each fact, at the start of the lent words.
fn put<F: Fn(u32) -> u16>(word: F, facts: &[u32], to: &mut [u16])
    requires room { length facts.now ≤ length to.old }
    requires asked { F.IsAlwaysCallable word }
    ensures { (f : ℕ → ℕ) → ((fact w : ℕ) → F.post word fact w → w ≡ f fact) → to.new ≡ map f facts.now ++ drop (length facts.now) to.old }
{
    for (i, fact) in facts.iter().enumerate() {
        to[i] = word(*fact);
    }
}

// All left words, and the right words directly after the last of them.
pub fn fill(facts: &[u32], to: &mut [u16])
    requires { 2 * length facts.now ≤ length to.old }
    ensures { to.new ≡ map left_of facts.now ++ map right_of facts.now ++ drop (2 * length facts.now) to.old }
{
    put(left_word, facts, to);
    let from = facts.len();
    put(right_word, facts, &mut to[from..]);
}
