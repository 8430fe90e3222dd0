//! Lines as words.
ghost use Rattle.std.specs.Prelude.{◌≡◌, ◌∷◌, ◌<◌, ◌≤◌, [], length, true, MatchOption};
ghost use Rattle.text_lines.specs.Lines.{is_blank, words, goes_on, word_length};

/// The words of a line, one after another.
#[derive(Drop)]
pub struct Words<'a> {
    rest: &'a [u8],
}

impl<'a> Iterator for Words<'a> {
    ghost use Rattle.std.specs.Iterator.{YieldsFirstRef, item_count};
    ghost use Rattle.text_lines.specs.Left.{words_left};

    type Item = &'a [u8];

    ghost next_gives = { YieldsFirstRef words_left };

    ghost remaining = { item_count words_left };

    fn next(&mut self) -> Option<&'a [u8]> {
        let (word, rest) = next_word(self.rest)?;
        self.rest = rest;
        Some(word)
    }
}

impl<'a> Words<'a> {
    ghost use Rattle.text_lines.specs.Left.{words_left};

    /// The words of the line.
    pub fn new(line: &'a [u8]) -> Words<'a>
        ensures { words_left result ≡ words line.now }
    {
        Words { rest: line }
    }
}

/// The first word of a line and what follows it.
#[tactic(auto, using(crate::proofs::Splitting::word_split, crate::proofs::Splitting::no_words, std::proofs::lemmas::List::take_rest))]
pub fn next_word(line: &[u8]) -> Option<(&[u8], &[u8])>
    ensures words { MatchOption result (words line.now ≡ []) (λ r. words line.now ≡ r.0.now ∷ words r.1.now) }
    ensures shorter { MatchOption result (words line.now ≡ []) (λ r. length r.1.now < length line.now) }
    ensures within { MatchOption result (words line.now ≡ []) (λ r. length r.0.now ≤ length line.now) }
{
    let rest = without_blanks(line);
    if rest.is_empty() {
        return None;
    }
    let length = word_length(rest);
    Some((&rest[..length], &rest[length..]))
}

/// The line without the blanks that it begins with.
#[tactic(auto, unfolding(crate::specs::Lines::words))]
fn without_blanks(line: &[u8]) -> &[u8]
    ensures words { words line.now ≡ words result.now }
    ensures begins { 0 < length result.now → goes_on result.now ≡ true }
    ensures shorter { length result.now ≤ length line.now }
{
    let mut rest = line;
    while let Some((byte, others)) = rest.split_first() {
        if !is_blank(*byte) {
            return rest;
        }
        rest = others;
    }
    rest
}

/// The length of the word that the line begins with.
fn word_length(line: &[u8]) -> usize
    ensures exact { result ≡ word_length line.now }
    ensures within { result ≤ length line.now }
{
    for (i, byte) in line.iter().enumerate() {
        if is_blank(*byte) {
            return i;
        }
    }
    line.len()
}

fn is_blank(byte: u8) -> bool
    ensures { result ≡ is_blank byte }
{
    byte == b' ' || (byte == b'\t' || byte == b'\r')
}
