//! The routes of the hall: which patterns a path may have, and what each takes of it.
ghost use Rattle.std.specs.Prelude.{◌≡◌, ◌<◌, ℕ, IfOk, IfErr, OnOk, IsTrue, true, map, option_map};
ghost use Rattle.std.specs.List.{list_all};
ghost use Rattle.std.specs.Char.{is_ascii};
ghost use Rattle.matchit.specs.Params.{walk};
ghost use Rattle.hall_policy.specs.Reading.{of_kind};
ghost use Rattle.hall_http.specs.Given.{GivesForm};
ghost use Rattle.hall_http.specs.Routes.{routes, found, rows_from, are_free, parts_of, resource_in, ascii_path};
ghost use Rattle.hall_http.specs.Routes.{by_method, puzzle_number, puzzle_key_in, puzzle_by, round_by};
ghost use Rattle.hall_http.specs.Parts.{parts_seen, AllAscii};

use crate::form::{FormFault, RequestFault};
use crate::words::{checked, read_decimal};
use hall_policy::{Checked, PuzzleKey, PuzzleNumber, RoundId, TextKind};
use matchit::{InsertError, Params, Router};
use std::alloc::{AllocError, Global};
use std::marker::Model;

const NO_ROUTE: RequestFault = RequestFault::Form(FormFault::NoRoute);

/// The resource that a pattern names.
#[derive(Clone, Copy, Debug, PartialEq, Eq)]
pub(crate) enum Resource {
    People,
    Puzzles,
    Puzzle,
    Certificate,
    Rounds,
    Round,
    Release,
    Answers,
    Answer,
    Solutions,
    Protests,
    Protest,
    Ruling,
    Publish,
    Table,
}

static PATTERNS: [(&str, Resource); 15] = [
    ("/people", Resource::People),
    ("/puzzles", Resource::Puzzles),
    ("/puzzles/{author}/{label}", Resource::Puzzle),
    (
        "/puzzles/{author}/{label}/certificate",
        Resource::Certificate,
    ),
    ("/rounds", Resource::Rounds),
    ("/rounds/{round}", Resource::Round),
    ("/rounds/{round}/release", Resource::Release),
    ("/rounds/{round}/answers", Resource::Answers),
    ("/rounds/{round}/answers/{number}/{token}", Resource::Answer),
    ("/rounds/{round}/solutions", Resource::Solutions),
    ("/rounds/{round}/protests", Resource::Protests),
    ("/rounds/{round}/protests/{token}", Resource::Protest),
    (
        "/rounds/{round}/rulings/{entrant}/{token}",
        Resource::Ruling,
    ),
    ("/rounds/{round}/publish", Resource::Publish),
    ("/rounds/{round}/table", Resource::Table),
];

/// The router with the hall's patterns.
#[derive(Drop)]
pub struct Routes {
    pub(crate) router: Router<Resource>,
}

impl Routes {
    /// All patterns of the hall.
    pub fn new(alloc: Global) -> Result<Routes, AllocError>
        ensures { IfOk result (λ made. made ≡ routes) }
    {
        match new_router(alloc) {
            Ok(router) => Ok(Routes { router }),
            Err(_) => Err(AllocError),
        }
    }
}

impl Model for Routes {
    ghost use Rattle.std.specs.Prelude.{◌≡◌};
    ghost use Rattle.hall_http.specs.Routes.{Table, routes};

    ghost Value = { Table };

    ghost view = { λ r. r.router };

    ghost invariant = { λ r. r.router ≡ routes };
}

/// Puts the patterns in, from the first on.
fn insert_all(
    router: &mut Router<Resource>,
    patterns: &[(&str, Resource)],
) -> Result<(), InsertError>
    requires { are_free router.old (map (λ p. (p.0.now, p.1)) patterns.now) ≡ true }
    ensures ok { OnOk result (router.new ≡ rows_from router.old (map (λ p. (p.0.now, p.1)) patterns.now)) }
    ensures err { IfErr result (λ e. e ≡ InsertError.OutOfMemory) }
{
    for (pattern, resource) in patterns {
        router.insert(pattern, *resource)?;
    }
    Ok(())
}

/// The router with the hall's patterns.
fn new_router(alloc: Global) -> Result<Router<Resource>, InsertError>
    ensures ok { IfOk result (λ router. router ≡ routes) }
    ensures err { IfErr result (λ e. e ≡ InsertError.OutOfMemory) }
{
    let mut router = Router::new(alloc);
    insert_all(&mut router, PATTERNS.as_slice())?;
    Ok(router)
}

/// The texts of a path's first three parameters; the empty text for one that isn't there.
#[derive(Clone, Copy)]
pub(crate) struct Parts<'p> {
    pub(crate) first: &'p str,
    pub(crate) second: &'p str,
    pub(crate) third: &'p str,
}

/// What the parameters took of the path. What comes after a missing one isn't told, so each is asked only behind
/// another.
fn parts_of<'p>(params: &Params<'_, 'p>) -> Parts<'p>
    requires { AllAscii (walk params.now.pattern.now params.now.text.now params.now.path.now params.now.names.now 0 0) }
    ensures { parts_seen result ≡ parts_of
        (walk params.now.pattern.now params.now.text.now params.now.path.now params.now.names.now 0 0) }
{
    let mut left = params.iter();
    let Some((_, first)) = left.next() else {
        return Parts {
            first: "",
            second: "",
            third: "",
        };
    };
    let Some((_, second)) = left.next() else {
        return Parts {
            first,
            second: "",
            third: "",
        };
    };
    let Some((_, third)) = left.next() else {
        return Parts {
            first,
            second,
            third: "",
        };
    };
    Parts {
        first,
        second,
        third,
    }
}

/// The resource of a path, and what its parameters took.
fn find<'p>(routes: &Routes, path: &'p str) -> Option<(Resource, Parts<'p>)>
    requires { list_all is_ascii path.now ≡ true }
    ensures { option_map (λ at. (at.0, parts_seen at.1)) result ≡ found path.now }
{
    match routes.router.at(path) {
        Ok(found) => Some((*found.value, parts_of(&found.params))),
        Err(_) => None,
    }
}

/// Whether each byte is ASCII.
fn is_ascii(path: &[u8]) -> bool
    ensures { result ≡ list_all is_ascii path.now }
{
    path.iter().all(|byte| byte.is_ascii())
}

/// The path as a text, where it is ASCII.
fn path_text(path: &[u8]) -> Result<&str, RequestFault>
    ensures { GivesForm (λ text. text.now) result (ascii_path path.now) }
{
    if !is_ascii(path) {
        return Err(NO_ROUTE);
    }
    match str::from_utf8(path) {
        Ok(text) => Ok(text),
        Err(_) => unreachable!(),
    }
}

/// The resource of a path, with its parts. A path that isn't ASCII has none.
pub(crate) fn resource_of<'p>(
    routes: &Routes,
    path: &'p [u8],
) -> Result<(Resource, Parts<'p>), RequestFault>
    ensures { GivesForm (λ at. (at.0, parts_seen at.1)) result (resource_in path.now) }
{
    let path = path_text(path)?;
    find(routes, path).ok_or(NO_ROUTE)
}

/// Nothing, where the method is this one.
pub(crate) fn by_method(method: &[u8], name: &[u8]) -> Result<(), RequestFault>
    ensures { GivesForm (λ u. u) result (by_method method.now name.now) }
{
    if method == name {
        Ok(())
    } else {
        Err(NO_ROUTE)
    }
}

/// The number of a puzzle in a round.
pub(crate) fn puzzle_number(text: &str) -> Result<PuzzleNumber, RequestFault>
    ensures { GivesForm (λ n. n) result (puzzle_number text.now) }
{
    let number = read_decimal(text.as_bytes()).ok_or(NO_ROUTE)?;
    PuzzleNumber::new(number).ok_or(NO_ROUTE)
}

/// The parameter that is a text of this kind.
pub(crate) fn word<K: TextKind>(alloc: Global, text: &str) -> Result<Checked<K>, RequestFault>
    requires { (byte : ℕ) → IsTrue (K.allows byte) → byte < 128 }
    ensures { GivesForm (λ t. t) result (of_kind FormFault.NoRoute K.LEAST K.MOST K.allows text.now) }
{
    checked(alloc, text.as_bytes(), FormFault::NoRoute)
}

/// The key of the puzzle that the path names.
pub(crate) fn puzzle_key(alloc: Global, parts: &Parts) -> Result<PuzzleKey, RequestFault>
    ensures { GivesForm (λ key. key) result (puzzle_key_in (parts_seen parts.now)) }
{
    Ok(PuzzleKey {
        author: word(alloc, parts.first)?,
        label: word(alloc, parts.second)?,
    })
}

/// The key of the puzzle that the path names, where the method is this one.
pub(crate) fn puzzle_by(
    alloc: Global,
    method: &[u8],
    name: &[u8],
    parts: &Parts,
) -> Result<PuzzleKey, RequestFault>
    ensures { GivesForm (λ key. key) result (puzzle_by method.now name.now (parts_seen parts.now)) }
{
    by_method(method, name)?;
    puzzle_key(alloc, parts)
}

/// The round that the path names, where the method is this one.
pub(crate) fn round_by(
    alloc: Global,
    method: &[u8],
    name: &[u8],
    parts: &Parts,
) -> Result<RoundId, RequestFault>
    ensures { GivesForm (λ id. id) result (round_by method.now name.now (parts_seen parts.now)) }
{
    by_method(method, name)?;
    word(alloc, parts.first)
}
