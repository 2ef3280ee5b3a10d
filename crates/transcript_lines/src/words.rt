//! The words of a line: what stands between its spaces.
ghost use Rattle.std.specs.Prelude.{◌≡◌, [], ◌∷◌};
ghost use Rattle.std.specs.Option.{option_map_or};
ghost use Rattle.std.specs.Iterator.{item_count, YieldsFirstRef};
ghost use Rattle.transcript_lines.specs.Words.{words_of, words_left};

use crate::cut::cut_at;

/// The words of a line, in order. A line of no bytes is one word of none.
#[derive(Drop)]
pub(crate) struct Words<'a> {
    rest: Option<&'a [u8]>,
}

impl<'a> Words<'a> {
    pub(crate) fn new(line: &'a [u8]) -> Self
        ensures { words_left result ≡ words_of line.now }
    {
        Words { rest: Some(line) }
    }
}

impl<'a> Iterator for Words<'a> {
    type Item = &'a [u8];

    ghost next_gives = { YieldsFirstRef words_left };

    ghost remaining = { item_count words_left };

    fn next(&mut self) -> Option<&'a [u8]> {
        let rest = self.rest?;
        let (word, after) = split_first_word(rest);
        self.rest = after;
        Some(word)
    }
}

// The word before the first space, and what follows that space.
fn split_first_word(line: &[u8]) -> (&[u8], Option<&[u8]>)
    ensures { words_of line.now ≡ result.0.now ∷ option_map_or (λ rest. words_of rest.now) result.1 [] }
{
    match cut_at(line, b' ') {
        Some((word, after)) => (word, Some(after)),
        None => (line, None),
    }
}
