//! The records of a replay: a line `@MOMENT LENGTH`, a line feed, and so many bytes.
ghost use Rattle.std.specs.Prelude.{◌≡◌, option_map};
ghost use Rattle.hall_http.specs.Records.{header_in, Cuts};

use crate::words::{after_front, cut, place_of, read_decimal};
use hall_policy::Moment;

/// The most bytes of a header: a mark, a moment, a space and a length.
const HEADER_LIMIT: usize = 17;

/// The most bytes of a request.
const REQUEST_SIZE_LIMIT: u64 = 73_728;

/// What stands at the front of some bytes.
#[derive(Clone, Copy, Debug, PartialEq, Eq)]
pub enum RecordCut {
    /// A whole record: its moment, where its request begins, and where it ends.
    Whole {
        moment: Moment,
        start: usize,
        end: usize,
    },
    /// No whole record so far.
    More,
    /// No record, however the bytes go on.
    Never,
}

/// The moment and the length of a request.
#[derive(Clone, Copy, Debug, PartialEq, Eq)]
struct Header {
    moment: Moment,
    size: usize,
}

/// The moment and the length that a line names.
fn header_of(line: &[u8]) -> Option<Header>
    ensures { option_map (λ header. (header.moment, header.size)) result ≡ header_in line.now }
{
    let numbers = after_front(line, b"@")?;
    let (moment, size) = cut(numbers, b' ')?;
    let moment = Moment::new(read_decimal(moment)?)?;
    let size = read_decimal(size)?;
    if size <= REQUEST_SIZE_LIMIT {
        Some(Header {
            moment,
            size: size as usize,
        })
    } else {
        None
    }
}

/// What stands at the front of the bytes.
pub fn cut_record(bytes: &[u8]) -> RecordCut
    ensures { Cuts bytes.now result }
{
    let Some(place) = place_of(bytes, b'\n') else {
        if bytes.len() > HEADER_LIMIT {
            return RecordCut::Never;
        }
        return RecordCut::More;
    };
    let Some(header) = header_of(&bytes[..place]) else {
        return RecordCut::Never;
    };
    let start = place + 1;
    if bytes.len() - start < header.size {
        return RecordCut::More;
    }
    RecordCut::Whole {
        moment: header.moment,
        start,
        end: start + header.size,
    }
}
