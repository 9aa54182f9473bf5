//! Lines of an input.
ghost use Rattle.std.specs.Prelude.{◌≡◌, ◌==◌, ◌∷◌, [], MatchOption};
ghost use Rattle.std.specs.List.{position};
ghost use Rattle.std.specs.Str.Lines.{lines, strip_carriage_return};
ghost use Rattle.hall_tool.specs.Input.{HasOneLine, HasTwoLines, LacksOneLine, LacksTwoLines};

/// The most bytes that an input has.
pub const LIMIT: usize = 8192;

/// Where the first line ends.
fn line_end(bytes: &[u8]) -> Option<usize>
    ensures { result ≡ position (λ byte. byte == 10) bytes.now }
{
    bytes.iter().position(|byte| *byte == b'\n')
}

/// The line without the one carriage return that it may end in.
fn without_return(line: &[u8]) -> &[u8]
    ensures { result.now ≡ strip_carriage_return line.now }
{
    match line {
        [start @ .., b'\r'] => start,
        _ => line,
    }
}

/// The first line, and what follows it; none where there is no line.
fn next_line(bytes: &[u8]) -> Option<(&[u8], &[u8])>
    ensures { MatchOption result (lines bytes.now ≡ []) (λ r. lines bytes.now ≡ r.0.now ∷ lines r.1.now) }
{
    if bytes.is_empty() {
        return None;
    }
    match line_end(bytes) {
        Some(at) => Some((without_return(&bytes[..at]), &bytes[at + 1..])),
        None => Some((bytes, &[])),
    }
}

/// The two lines of an input; none where it has another number of lines or more than 8,192 bytes.
pub fn two_lines(input: &[u8]) -> Option<(&[u8], &[u8])>
    ensures { MatchOption result (LacksTwoLines input.now) (λ r. HasTwoLines input.now r.0.now r.1.now) }
{
    if input.len() > LIMIT {
        return None;
    }
    let (first, rest) = next_line(input)?;
    let (second, rest) = next_line(rest)?;
    match next_line(rest) {
        Some(_) => None,
        None => Some((first, second)),
    }
}

/// The line of an input; none where it has another number of lines or more than 8,192 bytes.
pub fn one_line(input: &[u8]) -> Option<&[u8]>
    ensures { MatchOption result (LacksOneLine input.now) (λ line. HasOneLine input.now line.now) }
{
    if input.len() > LIMIT {
        return None;
    }
    let (line, rest) = next_line(input)?;
    match next_line(rest) {
        Some(_more) => None,
        None => Some(line),
    }
}
