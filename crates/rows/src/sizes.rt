// The sizes of sets and of rows, in words.
use index::bits::WORD_BITS;
use records::state::OBJECT_PART;

// A bit for each object that a fact can name.
pub const SET_WORDS: usize = OBJECT_PART / WORD_BITS;

// A row of a relation has a bit for each object that there is, in blocks: two words go at once.
pub const BLOCK_WORDS: usize = 2;

pub const BLOCK_BITS: usize = BLOCK_WORDS * WORD_BITS;

pub const SET_BLOCKS: usize = SET_WORDS / BLOCK_WORDS;
