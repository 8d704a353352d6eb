ghost use Rattle.std.specs.Option.{option_map};
ghost use Rattle.std.specs.List.{list_any};
ghost use Rattle.std.specs.Str.{bytes_eq};
ghost use Rattle.std.specs.Prelude.{nat_lt, ◌≡◌, ◌<◌, ℕ, List, [], ◌∷◌, map, length, string_bytes, MatchOption, IfSome};
ghost use Rattle.ibx_command.specs.Parts.{is_dashed, pieces_of, piece_fits, all_fit, files_of, both};
ghost use Rattle.ibx_command.specs.Found.{piece_of, text_for, texts_for, IsFoundIn};

/// What one or two words stand for.
#[derive(Drop)]
pub(crate) enum Part<'w> {
    /// The name of a file.
    File(&'w str),
    /// An option's name and its value.
    Setting(&'w str, &'w str),
    /// An option that no word follows.
    Bare,
}

/// What is looked for among words.
#[derive(Clone, Copy)]
pub(crate) enum Wanted<'n> {
    AnyFile,
    /// The value of the option of this name.
    ValueOf(&'n str),
}

/// What was found among words.
#[derive(Drop)]
pub(crate) enum Found<'w> {
    Nothing,
    One(&'w str),
    Several,
}

fn is_dashed(word: &str) -> bool
    ensures { result ≡ is_dashed word.now }
{
    word.as_bytes().starts_with(b"-")
}

fn is_listed(names: &[&str], name: &str) -> bool
    ensures { result ≡ list_any (λ known. bytes_eq known.now name.now) names.now }
{
    names.iter().any(|known| *known == name)
}

// The first part of the words after a command, and the words behind it.
fn first_part<'w>(words: &'w [String]) -> Option<(Part<'w>, &'w [String])>
    ensures parts { MatchOption result (pieces_of (map string_bytes words.now) ≡ [])
        (λ p. pieces_of (map string_bytes words.now) ≡ piece_of p.0 ∷ pieces_of (map string_bytes p.1.now)) }
    ensures shorter { IfSome result (λ p. length p.1.now < length words.now) }
{
    let (word, more) = words.split_first()?;
    let word = word.as_str();
    if !is_dashed(word) {
        return Some((Part::File(word), more));
    }
    match more.split_first() {
        Some((value, later)) => Some((Part::Setting(word, value.as_str()), later)),
        None => Some((Part::Bare, more)),
    }
}

impl<'w> Part<'w> {
    // Whether a command with options of these names takes this part.
    #[tactic(auto, unfolding(crate::specs::Parts::piece_fits), using(crate::proofs::Pieces::listed_text))]
    fn fits(self, names: &[&str]) -> bool
        ensures { result ≡ piece_fits (map (λ name. name.now) names.now) (piece_of self.entry) }
    {
        match self {
            Part::File(word) => !word.is_empty(),
            Part::Setting(name, value) => is_listed(names, name) && !is_dashed(value),
            Part::Bare => false,
        }
    }

    // The text that this part gives to what is looked for.
    fn text_for(self, wanted: Wanted<'_>) -> Option<&'w str>
        ensures { option_map (λ text. text.now) result ≡ text_for wanted.entry (piece_of self.entry) }
    {
        match (self, wanted) {
            (Part::File(word), Wanted::AnyFile) => Some(word),
            (Part::Setting(name, value), Wanted::ValueOf(wanted)) if name == wanted => Some(value),
            _ => None,
        }
    }
}

/// Whether a command with options of these names takes all words.
pub(crate) fn all_fit(words: &[String], names: &[&str]) -> bool
    ensures { result ≡ all_fit (map (λ name. name.now) names.now) (pieces_of (map string_bytes words.now)) }
{
    let mut rest = words;
    while let Some((part, more)) = first_part(rest) {
        if !part.fits(names) {
            return false;
        }
        rest = more;
    }
    true
}

fn is_there(words: &[String], wanted: Wanted<'_>) -> bool
    ensures { result ≡ nat_lt 0 (length (texts_for wanted.entry (pieces_of (map string_bytes words.now)))) }
{
    let mut rest = words;
    while let Some((part, more)) = first_part(rest) {
        if part.text_for(wanted).is_some() {
            return true;
        }
        rest = more;
    }
    false
}

/// What the words hold of what is looked for.
pub(crate) fn find<'w>(words: &'w [String], wanted: Wanted<'_>) -> Found<'w>
    ensures { IsFoundIn result (texts_for wanted.entry (pieces_of (map string_bytes words.now))) }
{
    let mut rest = words;
    while let Some((part, more)) = first_part(rest) {
        rest = more;
        if let Some(text) = part.text_for(wanted) {
            return if is_there(rest, wanted) {
                Found::Several
            } else {
                Found::One(text)
            };
        }
    }
    Found::Nothing
}

// The first file among words, and the words behind it.
fn next_file<'w>(words: &'w [String]) -> Option<(&'w str, &'w [String])>
    ensures { MatchOption result (files_of (pieces_of (map string_bytes words.now)) ≡ [])
        (λ p. files_of (pieces_of (map string_bytes words.now))
        ≡ p.0.now ∷ files_of (pieces_of (map string_bytes p.1.now))) }
{
    let mut rest = words;
    while let Some((part, more)) = first_part(rest) {
        rest = more;
        if let Some(file) = part.text_for(Wanted::AnyFile) {
            return Some((file, rest));
        }
    }
    None
}

/// The two files among words. None where there are fewer or more.
#[tactic(auto, unfolding(crate::specs::Parts::both))]
pub(crate) fn two_files<'w>(words: &'w [String]) -> Option<(&'w str, &'w str)>
    ensures { option_map (λ p. (p.0.now, p.1.now)) result ≡ both (files_of (pieces_of (map string_bytes words.now))) }
{
    let (first, behind) = next_file(words)?;
    let (second, behind) = next_file(behind)?;
    match next_file(behind) {
        None => Some((first, second)),
        Some(_) => None,
    }
}
