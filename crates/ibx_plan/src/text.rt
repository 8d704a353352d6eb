ghost use Rattle.std.specs.Prelude.{◌≡◌, ◌+◌, ◌<◌, ◌≤◌, ◌∷◌, ◌++◌, ◌==◌, [], ℕ, List, IfSome, length, map, take};
ghost use Rattle.std.specs.List.{position};
ghost use Rattle.std.specs.Str.Lines.{lines, strip_carriage_return};
ghost use Rattle.ibx_plan.specs.Text.{is_blank, first_words, word};

use std::marker::Model;

// One more than the longest row has.
const MOST: usize = 8;

/// The words of a line, without those past the eighth.
#[derive(Drop)]
pub(crate) struct Words<'a> {
    first: [&'a [u8]; MOST],
    count: usize,
}

impl<'a> Model for Words<'a> {
    ghost Value = { List (List ℕ) };

    ghost view = { λ w. map (λ x. x.now) (take w.count w.first) };

    ghost invariant = { λ w. w.count ≤ 8 };
}

fn is_blank(byte: u8) -> bool
    ensures { result ≡ is_blank byte }
{
    byte == b' ' || byte == b'\t'
}

impl<'a> Words<'a> {
    fn new() -> Words<'a>
        ensures { result ≡ [] }
    {
        Words {
            first: [&[]; MOST],
            count: 0,
        }
    }

    fn add(&mut self, word: &'a [u8])
        requires { length self.old < 8 }
        ensures { self.new ≡ self.old ++ word.now ∷ [] }
    {
        self.first[self.count] = word;
        self.count += 1;
    }

    /// The words of a line, parted by spaces and tabs.
    pub(crate) fn of(line: &'a [u8]) -> Words<'a>
        ensures { result ≡ first_words line.now }
    {
        let mut words = Words::new();
        let parts = line.split(|byte| is_blank(*byte));
        for word in parts.filter(|part| !part.is_empty()) {
            if words.len() == MOST {
                return words;
            }
            words.add(word);
        }
        words
    }

    pub(crate) fn len(&self) -> usize
        ensures { result ≡ length self.now }
    {
        self.count
    }

    /// The word at an index, empty where the line has no such word.
    pub(crate) fn at(&self, index: usize) -> &'a [u8]
        ensures { result.now ≡ word self.now index }
    {
        if index < self.count {
            self.first[index]
        } else {
            &[]
        }
    }
}

fn without_return(line: &[u8]) -> &[u8]
    ensures { result.now ≡ strip_carriage_return line.now }
{
    match line.last() {
        Some(b'\r') => &line[..line.len() - 1],
        _ => line,
    }
}

fn line_end(text: &[u8]) -> Option<usize>
    ensures place { result ≡ position (λ byte. byte == 10) text.now }
    ensures below { IfSome result (λ end. end < length text.now) }
{
    text.iter().position(|byte| *byte == b'\n')
}

/// The first line of a text that isn't empty, and what follows it.
#[tactic(auto, using(crate::proofs::Lines::first_of, crate::proofs::Lines::only_line))]
pub(crate) fn first_line(text: &[u8]) -> (&[u8], &[u8])
    requires { 0 < length text.now }
    ensures value { lines text.now ≡ result.0.now ∷ lines result.1.now }
    ensures shorter { length result.1.now < length text.now }
{
    match line_end(text) {
        Some(end) => (without_return(&text[..end]), &text[end + 1..]),
        None => (text, &[]),
    }
}
