//! Texts as lines.
ghost use Rattle.std.specs.Prelude.{◌≡◌, ◌∷◌, ◌<◌, ◌≤◌, length};
ghost use Rattle.text_lines.specs.Lines.{lines, line_length};

/// The lines of a text, one after another.
#[derive(Drop)]
pub struct Lines<'a> {
    rest: &'a [u8],
}

impl<'a> Iterator for Lines<'a> {
    ghost use Rattle.std.specs.Iterator.{YieldsFirstRef, item_count};
    ghost use Rattle.text_lines.specs.Left.{lines_left};

    type Item = &'a [u8];

    ghost next_gives = { YieldsFirstRef lines_left };

    ghost remaining = { item_count lines_left };

    #[tactic(auto, using(crate::proofs::Splitting::no_lines))]
    fn next(&mut self) -> Option<&'a [u8]> {
        if self.rest.is_empty() {
            return None;
        }
        let (line, rest) = first_line(self.rest);
        self.rest = rest;
        Some(line)
    }
}

impl<'a> Lines<'a> {
    ghost use Rattle.text_lines.specs.Left.{lines_left};

    /// The lines of the text.
    pub fn new(text: &'a [u8]) -> Lines<'a>
        ensures { lines_left result ≡ lines text.now }
    {
        Lines { rest: text }
    }
}

/// The first line of a text that is not empty, and what follows its LF.
#[tactic(auto, using(crate::proofs::Splitting::line_split, crate::proofs::Splitting::line_whole, std::proofs::lemmas::List::take_rest))]
pub fn first_line(text: &[u8]) -> (&[u8], &[u8])
    requires { 0 < length text.now }
    ensures lines { lines text.now ≡ result.0.now ∷ lines result.1.now }
    ensures shorter { length result.1.now < length text.now }
    ensures within { length result.0.now ≤ length text.now }
{
    let length = line_length(text);
    if length < text.len() {
        (&text[..length], &text[length + 1..])
    } else {
        (text, &[])
    }
}

/// How many bytes stand before the first LF, or in all.
fn line_length(text: &[u8]) -> usize
    ensures exact { result ≡ line_length text.now }
    ensures within { result ≤ length text.now }
{
    for (i, byte) in text.iter().enumerate() {
        if *byte == b'\n' {
            return i;
        }
    }
    text.len()
}
