//! One request on the wire: its head, and how long its body is.
ghost use Rattle.std.specs.Prelude.{◌≡◌, ◌≤◌, ◌==◌, ◌||◌, ℕ, List, length, map, All, ◌++◌, ◌∷◌, []};
ghost use Rattle.std.specs.Prelude.{MatchOption, option_map, codes};
ghost use Rattle.std.specs.List.{list_any};
ghost use Rattle.std.specs.Str.{str_eq_ignore_ascii_case};
ghost use Rattle.httparse.specs.Spans.{IsHeaderWithin, header_bytes, span_bytes};
ghost use Rattle.hall_http.specs.Head.{headers_named, Header, Finds, Cuts, IsWholeRequest, IsUnfinishedBelow};
ghost use Rattle.hall_http.specs.Head.{first_value};
ghost use Rattle.hall_http.specs.Head.{IsLentBy, length_of_text, body_size, says_close};

use httparse::Status;
use httparse::spans::{EMPTY_HEADER_SPAN, HeaderSpan, parse_request};

/// The most bytes of a head.
const HEAD_LIMIT: usize = 8192;

/// The most bytes of a body.
const BODY_LIMIT: usize = 65_536;

/// A request as its bytes: what of its head asks for something, its body, and whether the connection closes after it.
#[derive(Clone, Copy)]
pub(crate) struct RawRequest<'b> {
    pub(crate) method: &'b [u8],
    pub(crate) path: &'b [u8],
    pub(crate) key: Option<&'b [u8]>,
    pub(crate) body: &'b [u8],
    pub(crate) closes: bool,
}

/// Where the first request of some bytes ends.
#[derive(Clone, Copy)]
pub(crate) enum Cut<'b> {
    /// After so many bytes, which are this request.
    Whole {
        size: usize,
        request: RawRequest<'b>,
    },
    /// It is unfinished, and needn't be looked at again before so many bytes are there.
    More(usize),
    /// No bytes can make it whole.
    Never,
}

/// The headers of one name.
#[derive(Clone, Copy)]
enum Found<'b> {
    None,
    One(&'b [u8]),
    Many,
}

impl<'b> Found<'b> {
    /// The headers of one name, with one more.
    fn and(self, value: &'b [u8]) -> Found<'b>
        ensures { (headers : List Header) (name : List ℕ) → Finds self.entry headers →
            Finds result (headers ++ (name, value.entry.now) ∷ []) }
    {
        match self {
            Found::None => Found::One(value),
            _ => Found::Many,
        }
    }
}

/// Whether the header has this name, in any case of its letters.
fn has_name(bytes: &[u8], header: &HeaderSpan, name: &[u8]) -> bool
    requires { IsHeaderWithin (length bytes.now) header.now }
    ensures { result ≡ str_eq_ignore_ascii_case (span_bytes bytes.now header.now.name) name.now }
{
    header.name.of(bytes).eq_ignore_ascii_case(name)
}

/// The value of the one header of this name.
fn find_value<'b>(bytes: &'b [u8], headers: &[HeaderSpan], name: &[u8]) -> Found<'b>
    requires { All (IsHeaderWithin (length bytes.now)) headers.now }
    ensures { Finds result (headers_named name.now (map (header_bytes bytes.now) headers.now)) }
{
    let mut found = Found::None;
    for header in headers {
        if has_name(bytes, header, name) {
            found = found.and(header.value.of(bytes));
        }
    }
    found
}

/// The number that one to five digits write.
fn length_text(text: &[u8]) -> Option<usize>
    ensures { result ≡ length_of_text text.now }
{
    if text.is_empty() || text.len() > 5 {
        return None;
    }
    let mut value = 0usize;
    for b in text {
        if !b.is_ascii_digit() {
            return None;
        }
        value = value * 10 + (*b - b'0') as usize;
    }
    Some(value)
}

/// How many bytes the body has, where the hall takes a head of this size.
fn body_room(bytes: &[u8], headers: &[HeaderSpan], size: usize) -> Option<usize>
    requires within { All (IsHeaderWithin (length bytes.now)) headers.now }
    requires few { length headers.now ≤ 32 }
    ensures { result ≡ body_size size (map (header_bytes bytes.now) headers.now) }
{
    if size > HEAD_LIMIT {
        return None;
    }
    let Found::None = find_value(bytes, headers, b"transfer-encoding") else {
        return None;
    };
    if let Found::Many = find_value(bytes, headers, b"hall-key") {
        return None;
    }
    let length = match find_value(bytes, headers, b"content-length") {
        Found::None => 0,
        Found::One(text) => length_text(text)?,
        Found::Many => return None,
    };
    if length > BODY_LIMIT {
        return None;
    }
    Some(length)
}

/// Whether the header is `Connection: close`, in any case of its letters.
fn is_close(bytes: &[u8], header: &HeaderSpan) -> bool
    requires { IsHeaderWithin (length bytes.now) header.now }
    ensures { result ≡ says_close (header_bytes bytes.now header.now) }
{
    header.name.of(bytes).eq_ignore_ascii_case(b"connection")
        && header.value.of(bytes).eq_ignore_ascii_case(b"close")
}

/// Whether one of the headers is `Connection: close`.
fn have_close(bytes: &[u8], headers: &[HeaderSpan]) -> bool
    requires { All (IsHeaderWithin (length bytes.now)) headers.now }
    ensures { result ≡ list_any says_close (map (header_bytes bytes.now) headers.now) }
{
    let mut found = false;
    for header in headers {
        if is_close(bytes, header) {
            found = true;
        }
    }
    found
}

/// Whether the connection closes after a request of this version with these headers.
fn closes_after(bytes: &[u8], headers: &[HeaderSpan], version: u8) -> bool
    requires { All (IsHeaderWithin (length bytes.now)) headers.now }
    ensures { result ≡ (version == 0 || list_any says_close (map (header_bytes bytes.now) headers.now)) }
{
    version == 0 || have_close(bytes, headers)
}

/// The value of the key's header, where there is one.
fn shown_key<'b>(bytes: &'b [u8], headers: &[HeaderSpan]) -> Option<&'b [u8]>
    requires { All (IsHeaderWithin (length bytes.now)) headers.now }
    ensures { length (headers_named (codes "hall-key") (map (header_bytes bytes.now) headers.now)) ≤ 1 →
        option_map (λ value. value.now) result
        ≡ first_value (headers_named (codes "hall-key") (map (header_bytes bytes.now) headers.now)) }
{
    match find_value(bytes, headers, b"hall-key") {
        Found::One(value) => Some(value),
        Found::None | Found::Many => None,
    }
}

/// Finds the end of the first request of the bytes, and reads it: a head as `httparse` reads it, of at most 8,192 bytes
/// and 32 headers, and a body as long as the head says.
pub(crate) fn cut_request(bytes: &[u8]) -> Cut<'_>
    ensures { Cuts bytes.now result }
{
    let mut headers = [EMPTY_HEADER_SPAN; 32];
    match parse_request(bytes, &mut headers) {
        Ok(Status::Complete(head)) => {
            let fields = &headers[..head.headers];
            let Some(room) = body_room(bytes, fields, head.len) else {
                return Cut::Never;
            };
            if bytes.len() - head.len < room {
                return Cut::More(head.len + room);
            }
            let size = head.len + room;
            let request = RawRequest {
                method: head.method.of(bytes),
                path: head.path.of(bytes),
                key: shown_key(bytes, fields),
                body: &bytes[head.len..size],
                closes: closes_after(bytes, fields, head.version),
            };
            Cut::Whole { size, request }
        }
        Ok(Status::Partial) if bytes.len() < HEAD_LIMIT => Cut::More(0),
        _ => Cut::Never,
    }
}

/// Where the first request of the bytes ends, which are known to be unfinished below so many: no head is read anew for
/// each piece of a body.
pub(crate) fn cut_from(bytes: &[u8], least: usize) -> Cut<'_>
    requires { IsUnfinishedBelow least bytes.now }
    ensures { Cuts bytes.now result }
{
    if bytes.len() < least {
        return Cut::More(least);
    }
    cut_request(bytes)
}

/// The request that the bytes are, where they are one and no more.
pub(crate) fn read_raw_request(bytes: &[u8]) -> Option<RawRequest<'_>>
    ensures { MatchOption result (¬ (IsWholeRequest bytes.now)) (IsLentBy bytes.now) }
{
    match cut_request(bytes) {
        Cut::Whole { size, request } => {
            if size != bytes.len() {
                return None;
            }
            Some(request)
        }
        Cut::More(_) => None,
        Cut::Never => None,
    }
}
