//! The bytes of a request.
use std::alloc::{AllocError, Global};

/// The bytes of a request: the key that is shown, the method and path, and the body.
pub fn request_text(
    alloc: Global,
    key: &str,
    line: &str,
    body: &str,
) -> Result<String, AllocError> {
    format!(in alloc;
        "{line} HTTP/1.1\r\nHall-Key: {key}\r\nContent-Length: {}\r\n\r\n{body}",
        body.len()
    )
}
