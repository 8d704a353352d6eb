ghost use Rattle.std.specs.Prelude.{◌≡◌, ◌+◌, ◌<◌, ◌≤◌, ◌∷◌, ◌==◌, [], not, length, take, drop, slice_index, false};
ghost use Rattle.std.specs.Prelude.{IfSome, MatchOption};
ghost use Rattle.std.specs.List.{position};
ghost use Rattle.std.specs.Str.Lines.{lines, strip_carriage_return};
ghost use Rattle.ibx_asm.specs.Text.{is_blank, is_mark, is_plain, tokens, without_comment};

fn is_blank(byte: u8) -> bool
    ensures { result ≡ is_blank byte }
{
    byte == b' ' || byte == b'\t'
}

fn is_mark(byte: u8) -> bool
    ensures { result ≡ is_mark byte }
{
    byte == b',' || byte == b'(' || byte == b')' || byte == b':'
}

fn is_plain(byte: u8) -> bool
    ensures { result ≡ is_plain byte }
{
    !is_blank(byte) && !is_mark(byte)
}

fn without_return(line: &[u8]) -> &[u8]
    ensures { result.now ≡ strip_carriage_return line.now }
{
    match line.last() {
        Some(b'\r') => &line[..line.len() - 1],
        _ => line,
    }
}

fn line_end(text: &[u8]) -> Option<usize>
    ensures place { result ≡ position (λ byte. byte == 10) text.now }
    ensures below { IfSome result (λ end. end < length text.now) }
{
    text.iter().position(|byte| *byte == b'\n')
}

/// The first line of a text that isn't empty, and what follows it.
#[tactic(auto, using(crate::proofs::Lines::first_of, crate::proofs::Lines::only_line))]
pub(crate) fn first_line(text: &[u8]) -> (&[u8], &[u8])
    requires { 0 < length text.now }
    ensures value { lines text.now ≡ result.0.now ∷ lines result.1.now }
    ensures shorter { length result.1.now < length text.now }
{
    match line_end(text) {
        Some(end) => (without_return(&text[..end]), &text[end + 1..]),
        None => (text, &[]),
    }
}

fn hash_at(line: &[u8]) -> Option<usize>
    ensures place { result ≡ position (λ byte. byte == 35) line.now }
    ensures below { IfSome result (λ end. end < length line.now) }
{
    line.iter().position(|byte| *byte == b'#')
}

/// A line without its comment.
pub(crate) fn without_comment(line: &[u8]) -> &[u8]
    ensures { result.now ≡ without_comment line.now }
{
    match hash_at(line) {
        Some(end) => &line[..end],
        None => line,
    }
}

fn first_not_blank(text: &[u8]) -> Option<usize>
    ensures place { result ≡ position (λ byte. not (is_blank byte)) text.now }
    ensures below { IfSome result (λ start. start < length text.now) }
{
    text.iter().position(|byte| !is_blank(*byte))
}

fn first_not_plain(text: &[u8]) -> Option<usize>
    ensures place { result ≡ position (λ byte. not (is_plain byte)) text.now }
    ensures below { IfSome result (λ end. end < length text.now) }
{
    text.iter().position(|byte| !is_plain(*byte))
}

// The length of a text's first token, which begins the text.
fn token_length(text: &[u8]) -> usize
    requires some { 0 < length text.now }
    requires begins { is_blank (slice_index text.now 0) ≡ false }
    ensures value { tokens text.now ≡ take result text.now ∷ tokens (drop result text.now) }
    ensures within { result ≤ length text.now }
{
    if is_mark(text[0]) {
        return 1;
    }
    first_not_plain(text).unwrap_or(text.len())
}

/// The first token of a line and what follows it, none where the line has no token.
pub(crate) fn first_token(text: &[u8]) -> Option<(&[u8], &[u8])>
    ensures { MatchOption result (tokens text.now ≡ []) (λ r. tokens text.now ≡ r.0.now ∷ tokens r.1.now) }
{
    let start = first_not_blank(text)?;
    let rest = &text[start..];
    let end = token_length(rest);
    Some((&rest[..end], &rest[end..]))
}
