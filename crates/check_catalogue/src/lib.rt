// The catalogue record: its views, and its check (refusal 13, and those of each view).
#![tactic(auto)]

ghost use Rattle.std.specs.Prelude.{◌≡◌, ◌+◌, ◌≤◌, length};
ghost use Rattle.records.specs.Helpers.Word.{IsWord};
ghost use Rattle.records.specs.Layout.{max_views};
ghost use Rattle.records.specs.CatalogueRecord.{views as views_in, length_at, start_at, view_at};
ghost use Rattle.records.specs.CatalogueRefusal.{refusal_13, catalogue_answer};

use check_concept::check_concept;
use records::concept::View;
use records::layout::word;
use records::refusal::Refusal;
use records::schema::Signature;

pub const MAX_VIEWS: usize = 16;

#[tactic(auto, unfolding(records::specs::CatalogueRecord::views, records::specs::Layout::size_at))]
pub fn views(words: &[u16]) -> usize
    ensures { IsWord (views_in words.now) result }
{
    word(words, 0)
}

#[tactic(auto, unfolding(records::specs::CatalogueRecord::length_at, records::specs::Layout::size_at))]
fn length_at(words: &[u16], i: usize) -> usize
    requires { i ≤ max_views }
    ensures { IsWord (length_at words.now i) result }
{
    word(words, 1 + i)
}

// Where view `i` starts. The sum is not wrapped: it is far below the largest usize.
fn start_at(words: &[u16], i: usize) -> usize
    requires { i ≤ max_views }
    ensures { result ≡ start_at words.now i }
{
    1 + views(words) + (0..i).map(|k| length_at(words, k)).sum::<usize>()
}

pub fn view_at<'a>(words: &'a [u16], i: usize) -> &'a [u16]
    requires { (i ≤ max_views) × (start_at words.now i + length_at words.now i ≤ length words.now) }
    ensures { result.now ≡ view_at words.now i }
{
    let from = start_at(words, i);
    let to = from + length_at(words, i);
    &words[from..to]
}

// Refusal 13.
fn bad_layout(words: &[u16]) -> bool
    ensures { result ≡ refusal_13 words.now }
{
    let n = views(words);
    if (n < 1) | (MAX_VIEWS < n) {
        return true;
    }
    words.len() != start_at(words, n)
}

// The first refusal that applies, or nothing.
pub fn check_catalogue(s: Signature, words: &[u16]) -> Result<(), Refusal>
    ensures { result ≡ catalogue_answer s words.now }
{
    if bad_layout(words) {
        return Err(Refusal::CatalogueLayout);
    }
    let n = views(words);
    for i in 0..n {
        let read = check_concept::<View>(s, view_at(words, i));
        let Ok(_) = read else {
            return Err(read.unwrap_err());
        };
    }
    Ok(())
}
