ghost use Rattle.std.specs.Prelude.{◌≡◌, IfOk, map};
ghost use Rattle.fal_script.specs.Words.{is_word as is_word_of, words_of as words_in, is_comment as is_comment_of, is_skipped_line as is_skipped_of};

use std::alloc::{AllocError, Global};

#[tactic(auto, unfolding(crate::specs::Words::is_word))]
pub fn is_word(bytes: &[u8], word: &[u8]) -> bool
    ensures { result ≡ is_word_of word.now bytes.now }
{
    bytes == word
}

/// The words of a line: its parts between spaces and tabs that are not empty.
#[tactic(auto, unfolding(crate::specs::Words::words_of))]
pub fn words_of(alloc: Global, line: &[u8]) -> Result<Vec<&[u8]>, AllocError>
    ensures { IfOk result (λ words. map (λ w. w.now) words.items ≡ words_in line.now) }
{
    // Nearly every line has at most eight words, so that one allocation holds them.
    let mut words = Vec::with_capacity(alloc, 8)?;
    let parts = line
        .split(|b| *b == b' ' || *b == b'\t')
        .filter(|part| !part.is_empty());
    words.extend(parts)?;
    Ok(words)
}

fn is_comment(word: &[u8]) -> bool
    ensures { result ≡ is_comment_of word.now }
{
    match word {
        [first, ..] => *first == b'#',
        [] => false,
    }
}

/// Whether the line of these words is skipped: it has none, or the first one begins with `#`.
pub fn is_skipped(words: &[&[u8]]) -> bool
    ensures { result ≡ is_skipped_of (map (λ w. w.now) words.now) }
{
    match words {
        [first, ..] => is_comment(first),
        [] => true,
    }
}
