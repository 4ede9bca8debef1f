// Rows of as many blocks as the objects need, and one row put into another, block by block.
ghost use Rattle.std.specs.Prelude.{◌+◌, ◌*◌, ◌≤◌, ◌<◌, ◌^◌, ◌≡◌, length};
ghost use Rattle.records.specs.Layout.{object_part};
ghost use Rattle.rows.specs.Selection.{set_words};
ghost use Rattle.rows.specs.Blocks.{block_words, set_blocks, blocks_for, BlockMerged, Joined, Merged};

use crate::sets::row;
use crate::sizes::{BLOCK_BITS, BLOCK_WORDS, SET_BLOCKS, SET_WORDS};

// The blocks of a row with a bit for each object below `n`.
pub fn blocks_for(n: usize) -> usize
    requires { n ≤ object_part }
    ensures { result ≡ blocks_for n }
{
    n.div_ceil(BLOCK_BITS)
}

// Puts block `q` into block `p`. Both its words are read before the first is written, so that they go at once.
fn merge_block(rows: &mut [u64], p: usize, q: usize)
    requires block_words_in_bounds { p * block_words + block_words ≤ length rows.old }
    requires block_words_in_bounds_2 { q * block_words + block_words ≤ length rows.old }
    ensures { BlockMerged rows.old p q rows.new }
{
    let i = p * BLOCK_WORDS;
    let j = q * BLOCK_WORDS;
    let first = rows[i] | rows[j];
    let second = rows[i + 1] | rows[j + 1];
    rows[i] = first;
    rows[i + 1] = second;
}

// Puts row `s` into row `r`, whatever the number of blocks.
fn merge_blocks(rows: &mut [u64], r: usize, s: usize, blocks: usize)
    requires block_words_in_bounds { (r + 1) * blocks * block_words ≤ length rows.old }
    requires block_words_in_bounds_2 { (s + 1) * blocks * block_words ≤ length rows.old }
    requires rows_len_bound { length rows.old < 2 ^ 32 }
    ensures { Merged blocks rows.old r s rows.new }
{
    let to = r * blocks;
    let from = s * blocks;
    for c in 0..blocks {
        merge_block(rows, to + c, from + c);
    }
}

// Puts the set into row `r`, where a row is a whole set.
fn join(rows: &mut [u64], r: usize, set: &[u64; SET_WORDS])
    requires set_words_in_bounds { r * set_words + set_words ≤ length rows.old }
    requires set_len { length set.now ≡ set_words }
    ensures { Joined rows.old r set.now rows.new }
{
    for (j, word) in set.iter().enumerate() {
        rows[r * SET_WORDS + j] |= *word;
    }
}

// A row that is a whole set has a fixed number of words: all are read before the first is written, and no loop is left.
fn merge_whole(rows: &mut [u64], r: usize, s: usize)
    requires set_words_in_bounds { r * set_words + set_words ≤ length rows.old }
    requires set_words_in_bounds_2 { s * set_words + set_words ≤ length rows.old }
    ensures { Merged set_blocks rows.old r s rows.new }
{
    let set = row(rows, s);
    join(rows, r, &set);
}

// Puts row `s` into row `r`: whole rows at once, others block by block.
pub fn merge(rows: &mut [u64], r: usize, s: usize, blocks: usize)
    requires block_words_in_bounds { (r + 1) * blocks * block_words ≤ length rows.old }
    requires block_words_in_bounds_2 { (s + 1) * blocks * block_words ≤ length rows.old }
    requires rows_len_bound { length rows.old < 2 ^ 32 }
    ensures { Merged blocks rows.old r s rows.new }
{
    if blocks == SET_BLOCKS {
        merge_whole(rows, r, s);
    } else {
        merge_blocks(rows, r, s, blocks);
    }
}
