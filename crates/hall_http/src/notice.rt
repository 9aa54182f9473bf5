//! What is told as a hall begins to be served.
ghost use Rattle.std.specs.Prelude.{◌≡◌, ◌⊎◌, IfOk, string_bytes};
ghost use Rattle.std.specs.Io.KnownBytes.{Appends};
ghost use Rattle.hall_http.specs.Device.{WritesPart};
ghost use Rattle.hall_http.specs.Notice.{IsNotified, notice_of, census_text};

use crate::device::write_all;
use hall_desk::Census;
use hall_grid::Counted;
use std::alloc::{AllocError, Global};
use std::io::Write;

/// Tells on which port of 127.0.0.1 the hall in the file at the path is served, and how many people and rounds it knows
/// where they were counted, by one line, or as much of it as is taken. Where memory is out, nothing is told.
pub fn notify<E: Write>(
    alloc: Global,
    port: u64,
    path: &str,
    census: Option<Census>,
    error: &mut Counted<E>,
)
    ensures { IsNotified E.contents port path.now census error.old error.new }
{
    if let Ok(line) = notice_of(alloc, port, path, census) {
        let _written = write_all(error, line.as_str().as_bytes());
    }
}

/// The line.
fn notice_of(
    alloc: Global,
    port: u64,
    path: &str,
    census: Option<Census>,
) -> Result<String, AllocError>
    ensures { IfOk result (λ line. string_bytes line ≡ notice_of port path.now census) }
{
    let counts = census_text(alloc, census)?;
    format!(in alloc; "hall: serving 127.0.0.1:{port} from {path}{counts}\n")
}

/// What the line says of how many people and rounds the hall knows.
fn census_text(alloc: Global, census: Option<Census>) -> Result<String, AllocError>
    ensures { IfOk result (λ text. string_bytes text ≡ census_text census) }
{
    match census {
        Some(Census { people, rounds }) => {
            format!(in alloc; ", people {people}, rounds {rounds}")
        }
        None => Ok(String::new(alloc)),
    }
}
