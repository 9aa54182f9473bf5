//! One request, read as what it asks for.
ghost use Rattle.std.specs.Prelude.{◌≡◌, IfOk, Ok, codes, option_and_then, option_map};
ghost use Rattle.std.specs.Str.{bytes_eq};
ghost use Rattle.hall_http.specs.Given.{FindsForm};
ghost use Rattle.hall_http.specs.Parts.{parts_seen};
ghost use Rattle.hall_http.specs.Request.{caller_key_in, PutOf, PutPuzzleAt, PuzzleAt, put_round_at};
ghost use Rattle.hall_http.specs.Request.{ActionAt, ActionOf, AsksFor};

use crate::body::{read_answer, read_budget, read_protest, read_ruling, read_text};
use crate::form::{FormFault, RequestFault, puzzle_fault};
use crate::head::RawRequest;
use crate::routes::{
    Parts, Resource, Routes, by_method, puzzle_by, puzzle_key, puzzle_number, resource_of,
    round_by, word,
};
use crate::words::checked;
use hall_grid::parse_puzzle;
use hall_policy::{Action, Key, PuzzleKey, Request};
use hall_sheet::{read_people, read_round};
use std::alloc::{AllocError, Global};

/// The caller's key; none where none is shown, or what is shown isn't of a key's form.
fn key_of(alloc: Global, shown: Option<&[u8]>) -> Result<Option<Key>, AllocError>
    ensures { IfOk result (λ key. key ≡ option_and_then caller_key_in (option_map (λ text. text.now) shown.entry)) }
{
    let Some(text) = shown else {
        return Ok(None);
    };
    match checked(alloc, text, FormFault::NotWhole) {
        Ok(key) => Ok(Some(key)),
        Err(RequestFault::Form(_)) => Ok(None),
        Err(RequestFault::Memory) => Err(AllocError),
    }
}

/// The puzzle that a text spells, to be put under the key.
fn put_of(alloc: Global, key: PuzzleKey, text: &[u8]) -> Result<Action, RequestFault>
    ensures { FindsForm result (PutOf key text.now) }
{
    match parse_puzzle(alloc, text) {
        Ok(puzzle) => Ok(Action::PutPuzzle { key, puzzle }),
        Err(fault) => match puzzle_fault(fault) {
            Some(found) => Err(RequestFault::Form(FormFault::Puzzle(found))),
            None => Err(RequestFault::Memory),
        },
    }
}

/// The puzzle that the body's text spells, to be put under the key that the path names.
fn put_puzzle_at(alloc: Global, parts: &Parts, body: &[u8]) -> Result<Action, RequestFault>
    ensures { FindsForm result (PutPuzzleAt (parts_seen parts.now) body.now) }
{
    let key = puzzle_key(alloc, parts)?;
    let text = read_text(alloc, body)?;
    put_of(alloc, key, text.as_str().as_bytes())
}

/// What is asked of a puzzle: PUT stores it, GET reads it.
fn puzzle_at(
    alloc: Global,
    method: &[u8],
    parts: &Parts,
    body: &[u8],
) -> Result<Action, RequestFault>
    ensures { FindsForm result
        (PuzzleAt (bytes_eq method.now (codes "PUT")) method.now (parts_seen parts.now) body.now) }
{
    if method == b"PUT".as_slice() {
        return put_puzzle_at(alloc, parts, body);
    }
    let key = puzzle_by(alloc, method, b"GET", parts)?;
    Ok(Action::ReadPuzzle { key })
}

/// A search of the puzzle that the path names, within the budget that the body tells.
fn certify_at(
    alloc: Global,
    method: &[u8],
    parts: &Parts,
    body: &[u8],
) -> Result<Action, RequestFault>
    ensures { FindsForm result (ActionAt method.now Resource.Certificate (parts_seen parts.now) body.now) }
{
    let key = puzzle_by(alloc, method, b"POST", parts)?;
    let budget = read_budget(alloc, body)?;
    Ok(Action::Certify { key, budget })
}

/// The draft of the round that the path names, by the sheet that the body is.
fn put_round_at(alloc: Global, parts: &Parts, body: &[u8]) -> Result<Action, RequestFault>
    ensures { FindsForm result (λ outcome. outcome ≡ put_round_at (parts_seen parts.now) body.now) }
{
    let round = word(alloc, parts.first)?;
    let sheet = read_round(alloc, body)?;
    Ok(Action::PutRound { round, sheet })
}

/// What is asked of a round: PUT stores its draft, GET reads it.
fn round_at(
    alloc: Global,
    method: &[u8],
    parts: &Parts,
    body: &[u8],
) -> Result<Action, RequestFault>
    ensures { FindsForm result (ActionAt method.now Resource.Round (parts_seen parts.now) body.now) }
{
    if method == b"PUT".as_slice() {
        return put_round_at(alloc, parts, body);
    }
    let round = round_by(alloc, method, b"GET", parts)?;
    Ok(Action::ReadRound { round })
}

/// The answer that the body tells, to the puzzle of the number and under the token that the path names.
fn submit_at(
    alloc: Global,
    method: &[u8],
    parts: &Parts,
    body: &[u8],
) -> Result<Action, RequestFault>
    ensures { FindsForm result (ActionAt method.now Resource.Answer (parts_seen parts.now) body.now) }
{
    let round = round_by(alloc, method, b"PUT", parts)?;
    let number = puzzle_number(parts.second)?;
    let token = word(alloc, parts.third)?;
    let answer = read_answer(alloc, body)?;
    Ok(Action::Submit {
        round,
        number,
        token,
        answer,
    })
}

/// The protest that the body tells, in the round and under the token that the path names.
fn protest_at(
    alloc: Global,
    method: &[u8],
    parts: &Parts,
    body: &[u8],
) -> Result<Action, RequestFault>
    ensures { FindsForm result (ActionAt method.now Resource.Protest (parts_seen parts.now) body.now) }
{
    let round = round_by(alloc, method, b"PUT", parts)?;
    let token = word(alloc, parts.second)?;
    let (number, text) = read_protest(alloc, body)?;
    Ok(Action::Protest {
        round,
        token,
        number,
        text,
    })
}

/// The ruling that the body tells, of the entrant's protest with the token that the path names.
fn rule_protest_at(
    alloc: Global,
    method: &[u8],
    parts: &Parts,
    body: &[u8],
) -> Result<Action, RequestFault>
    ensures { FindsForm result (ActionAt method.now Resource.Ruling (parts_seen parts.now) body.now) }
{
    let round = round_by(alloc, method, b"PUT", parts)?;
    let entrant = word(alloc, parts.second)?;
    let token = word(alloc, parts.third)?;
    let ruling = read_ruling(alloc, body)?;
    Ok(Action::RuleProtest {
        round,
        entrant,
        token,
        ruling,
    })
}

/// What a method asks at a resource, with the path's parts and the body. The body is read last.
fn action_at(
    alloc: Global,
    method: &[u8],
    resource: Resource,
    parts: &Parts,
    body: &[u8],
) -> Result<Action, RequestFault>
    ensures { FindsForm result (ActionAt method.now resource (parts_seen parts.now) body.now) }
{
    match resource {
        Resource::People => {
            by_method(method, b"POST")?;
            let people = read_people(alloc, body)?;
            Ok(Action::Import { people })
        }
        Resource::Puzzles => {
            by_method(method, b"GET")?;
            Ok(Action::ListPuzzles)
        }
        Resource::Puzzle => puzzle_at(alloc, method, parts, body),
        Resource::Certificate => certify_at(alloc, method, parts, body),
        Resource::Rounds => {
            by_method(method, b"GET")?;
            Ok(Action::ListRounds)
        }
        Resource::Round => round_at(alloc, method, parts, body),
        Resource::Release => Ok(Action::Release {
            round: round_by(alloc, method, b"POST", parts)?,
        }),
        Resource::Answers => Ok(Action::Answers {
            round: round_by(alloc, method, b"GET", parts)?,
        }),
        Resource::Answer => submit_at(alloc, method, parts, body),
        Resource::Solutions => Ok(Action::Solutions {
            round: round_by(alloc, method, b"GET", parts)?,
        }),
        Resource::Protests => Ok(Action::Protests {
            round: round_by(alloc, method, b"GET", parts)?,
        }),
        Resource::Protest => protest_at(alloc, method, parts, body),
        Resource::Ruling => rule_protest_at(alloc, method, parts, body),
        Resource::Publish => Ok(Action::Publish {
            round: round_by(alloc, method, b"POST", parts)?,
        }),
        Resource::Table => Ok(Action::Table {
            round: round_by(alloc, method, b"GET", parts)?,
        }),
    }
}

/// What a method, a path and a body ask for.
fn action_of(
    alloc: Global,
    routes: &Routes,
    method: &[u8],
    path: &[u8],
    body: &[u8],
) -> Result<Action, RequestFault>
    ensures { FindsForm result (ActionOf method.now path.now body.now) }
{
    let (resource, parts) = resource_of(routes, path)?;
    action_at(alloc, method, resource, &parts, body)
}

/// What a request asks for.
pub(crate) fn request_of(
    alloc: Global,
    routes: &Routes,
    raw: &RawRequest<'_>,
) -> Result<Request, RequestFault>
    ensures { FindsForm result (AsksFor raw.now) }
{
    let action = action_of(alloc, routes, raw.method, raw.path, raw.body)?;
    let key = key_of(alloc, raw.key)?;
    Ok(Request { key, action })
}
