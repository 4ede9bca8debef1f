// The shape that all records share: size words, then the left words, then the right words.
ghost use Rattle.std.specs.Prelude.{◌≡◌, ◌+◌, ◌<◌, ◌^◌, get_or};
ghost use Rattle.records.specs.Helpers.Word.{IsWord};
ghost use Rattle.records.specs.Layout.{entries as entries_of, left_at, right_at};
ghost use Rattle.records.specs.Shape.{misshapen as misshapen_in};

// How many size words come first, and which of them, from 0, counts the entries.
#[derive(Clone, Copy)]
pub struct Layout {
    pub sizes: usize,
    pub counter: usize,
}

// The word at `i`, or 0 past the end: no index can be out of range.
pub fn word(words: &[u16], i: usize) -> usize
    ensures { IsWord (get_or words.now i 0) result }
{
    words.get(i).map_or(0, |word| usize::from(*word))
}

pub fn entries(layout: Layout, words: &[u16]) -> usize
    ensures { IsWord (entries_of layout words.now) result }
{
    word(words, layout.counter)
}

pub fn left(layout: Layout, words: &[u16], i: usize) -> usize
    requires { layout.sizes + i < 2 ^ 32 }
    ensures { IsWord (left_at layout words.now i) result }
{
    word(words, layout.sizes + i)
}

pub fn right(layout: Layout, words: &[u16], i: usize) -> usize
    requires { layout.sizes + i < 2 ^ 32 }
    ensures { IsWord (right_at layout words.now i) result }
{
    word(words, layout.sizes + entries(layout, words) + i)
}

// Fewer words than the sizes, or a length other than the sizes and twice the entries.
pub fn misshapen(layout: Layout, words: &[u16]) -> bool
    requires { layout.sizes < 2 ^ 16 }
    ensures { result ≡ misshapen_in layout words.now }
{
    (words.len() < layout.sizes) | (words.len() != layout.sizes + 2 * entries(layout, words))
}
