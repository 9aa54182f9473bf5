//! The JSON bodies of requests.
ghost use Rattle.std.specs.Prelude.{◌≡◌, map, string_bytes};
ghost use Rattle.std.specs.List.{list_any, list_all};
ghost use Rattle.std.specs.Str.{bytes_eq};
ghost use Rattle.serde_json.specs.Errors.{IsMemory};
ghost use Rattle.serde_json.specs.View.{members_view};
ghost use Rattle.hall_http.specs.Given.{GivesForm};
ghost use Rattle.hall_http.specs.Body.{object_in, answer_in_body, text_in_body, budget_in_body, protest_in_body};
ghost use Rattle.hall_http.specs.Body.{ruling_in_body};
ghost use Rattle.hall_http.specs.Body.{answer_among, text_among, budget_among, protest_among, ruling_among};
ghost use Rattle.hall_http.specs.Body.{text_of_member, integer_of_member, flag_of_member, in_range_or_fault, points_in};
ghost use Rattle.hall_http.specs.Body.{ruling_from};

use crate::form::{Field, FormFault, RequestFault};
use crate::words::checked;
use hall_policy::{
    AnswerText, Budget, ProtestText, PuzzleNumber, PuzzleText, Ruling, RulingPoints, Within,
};
use serde_json::{Error, Map, Number, Value};
use std::alloc::Global;

const SYNTAX: RequestFault = RequestFault::Form(FormFault::Syntax);

/// Whether the name is one of these.
fn is_listed(names: &[&str], name: &str) -> bool
    ensures { result ≡ list_any (λ n. bytes_eq n.now name.now) names.now }
{
    names.iter().any(|listed| *listed == name)
}

/// Whether each member has one of these names.
fn are_listed(members: &Map<String, Value>, names: &[&str]) -> bool
    ensures { result ≡ list_all
        (λ k. list_any (λ n. bytes_eq n.now (string_bytes k)) names.now) (map (λ e. e.0) members.now.entries) }
{
    members.keys().all(|name| is_listed(names, name.as_str()))
}

/// Why a text was not read.
fn read_fault(error: &Error) -> RequestFault
    ensures memory { IsMemory error.now → result ≡ RequestFault.Memory }
    ensures form { ¬ (IsMemory error.now) → result ≡ RequestFault.Form FormFault.Syntax }
{
    if error.is_memory() {
        RequestFault::Memory
    } else {
        SYNTAX
    }
}

/// The members of the object that a body is, which all have one of these names.
#[tactic(auto, using(crate::proofs::Listed::only_listed))]
fn read_object(
    alloc: Global,
    body: &[u8],
    names: &[&str],
) -> Result<Map<String, Value>, RequestFault>
    ensures { GivesForm (λ m. members_view m.entries) result (object_in (map (λ n. n.now) names.now) body.now) }
{
    let Ok(text) = str::from_utf8(body) else {
        return Err(SYNTAX);
    };
    let value = match Value::from_str(alloc, text) {
        Ok(value) => value,
        Err(e) => return Err(read_fault(&e)),
    };
    let Value::Object(members) = value else {
        return Err(SYNTAX);
    };
    if !are_listed(&members, names) {
        return Err(SYNTAX);
    }
    Ok(members)
}

/// The text that a member is.
fn text_at<'a>(
    members: &'a Map<String, Value>,
    name: &str,
    field: Field,
) -> Result<&'a str, RequestFault>
    ensures { GivesForm (λ t. t.now) result (text_of_member field name.now (members_view members.now.entries)) }
{
    let Some(value) = members.get(name) else {
        return Err(RequestFault::Form(FormFault::Missing(field)));
    };
    match value.as_str() {
        Some(text) => Ok(text),
        None => Err(RequestFault::Form(FormFault::Missing(field))),
    }
}

/// The integer that a member is.
fn integer_at(members: &Map<String, Value>, name: &str, field: Field) -> Result<i128, RequestFault>
    ensures { GivesForm (λ n. n) result (integer_of_member field name.now (members_view members.now.entries)) }
{
    let Some(value) = members.get(name) else {
        return Err(RequestFault::Form(FormFault::Missing(field)));
    };
    match value.as_number().and_then(Number::as_i128) {
        Some(integer) => Ok(integer),
        None => Err(RequestFault::Form(FormFault::Missing(field))),
    }
}

/// Whether a member is true or false.
fn flag_at(members: &Map<String, Value>, name: &str, field: Field) -> Result<bool, RequestFault>
    ensures { GivesForm (λ b. b) result (flag_of_member field name.now (members_view members.now.entries)) }
{
    let Some(value) = members.get(name) else {
        return Err(RequestFault::Form(FormFault::Missing(field)));
    };
    match value.as_bool() {
        Some(flag) => Ok(flag),
        None => Err(RequestFault::Form(FormFault::Missing(field))),
    }
}

/// The number in its range, or the fault where it lies outside.
fn in_range<const LEAST: u64, const MOST: u64>(
    integer: i128,
    fault: FormFault,
) -> Result<Within<LEAST, MOST>, RequestFault>
    ensures { GivesForm (λ n. n) result (in_range_or_fault fault LEAST MOST integer) }
{
    let outside = RequestFault::Form(fault);
    let Ok(value) = u64::try_from(integer) else {
        return Err(outside);
    };
    Within::new(value).ok_or(outside)
}

/// The answer among the members.
fn answer_among(alloc: Global, members: &Map<String, Value>) -> Result<AnswerText, RequestFault>
    ensures { GivesForm (λ t. t) result (answer_among (members_view members.now.entries)) }
{
    let text = text_at(members, "answer", Field::Answer)?;
    checked(alloc, text.as_bytes(), FormFault::Range(Field::Answer))
}

/// The answer that a body spells.
pub(crate) fn read_answer(alloc: Global, body: &[u8]) -> Result<AnswerText, RequestFault>
    ensures { GivesForm (λ t. t) result (answer_in_body body.now) }
{
    let members = read_object(alloc, body, &["answer"])?;
    let answer = answer_among(alloc, &members);
    drop(members);
    answer
}

/// The puzzle text among the members.
fn text_among(alloc: Global, members: &Map<String, Value>) -> Result<PuzzleText, RequestFault>
    ensures { GivesForm (λ t. t) result (text_among (members_view members.now.entries)) }
{
    let text = text_at(members, "text", Field::Text)?;
    checked(alloc, text.as_bytes(), FormFault::Range(Field::Text))
}

/// The puzzle text that a body spells.
pub(crate) fn read_text(alloc: Global, body: &[u8]) -> Result<PuzzleText, RequestFault>
    ensures { GivesForm (λ t. t) result (text_in_body body.now) }
{
    let members = read_object(alloc, body, &["text"])?;
    let text = text_among(alloc, &members);
    drop(members);
    text
}

/// The budget among the members.
fn budget_among(members: &Map<String, Value>) -> Result<Budget, RequestFault>
    ensures { GivesForm (λ n. n) result (budget_among (members_view members.now.entries)) }
{
    let budget = integer_at(members, "budget", Field::Budget)?;
    in_range(budget, FormFault::Range(Field::Budget))
}

/// The budget that a body spells.
pub(crate) fn read_budget(alloc: Global, body: &[u8]) -> Result<Budget, RequestFault>
    ensures { GivesForm (λ n. n) result (budget_in_body body.now) }
{
    let members = read_object(alloc, body, &["budget"])?;
    let budget = budget_among(&members);
    drop(members);
    budget
}

/// The number and the text of a protest among the members.
fn protest_among(
    alloc: Global,
    members: &Map<String, Value>,
) -> Result<(PuzzleNumber, ProtestText), RequestFault>
    ensures { GivesForm (λ protest. protest) result (protest_among (members_view members.now.entries)) }
{
    let number = integer_at(members, "number", Field::Number)?;
    let number = in_range(number, FormFault::Range(Field::Number))?;
    let text = text_at(members, "text", Field::Text)?;
    let text = checked(alloc, text.as_bytes(), FormFault::Range(Field::Text))?;
    Ok((number, text))
}

/// The number and the text of a protest that a body spells.
pub(crate) fn read_protest(
    alloc: Global,
    body: &[u8],
) -> Result<(PuzzleNumber, ProtestText), RequestFault>
    ensures { GivesForm (λ protest. protest) result (protest_in_body body.now) }
{
    let members = read_object(alloc, body, &["number", "text"])?;
    let protest = protest_among(alloc, &members);
    drop(members);
    protest
}

/// The points of a ruling.
fn points_of(integer: i128) -> Result<RulingPoints, RequestFault>
    ensures { GivesForm (λ points. points) result (points_in integer) }
{
    let outside = RequestFault::Form(FormFault::Range(Field::Points));
    let Ok(points) = i16::try_from(integer) else {
        return Err(outside);
    };
    RulingPoints::new(points).ok_or(outside)
}

/// The ruling of these points; where the protest isn't upheld there are none.
fn ruling_of(points: RulingPoints, upheld: bool) -> Result<Ruling, RequestFault>
    ensures { GivesForm (λ ruling. ruling) result (ruling_from points upheld) }
{
    if upheld {
        Ok(Ruling::Upheld(points))
    } else if points.get() == 0 {
        Ok(Ruling::Rejected)
    } else {
        Err(RequestFault::Form(FormFault::Range(Field::Points)))
    }
}

/// The ruling among the members.
fn ruling_among(members: &Map<String, Value>) -> Result<Ruling, RequestFault>
    ensures { GivesForm (λ ruling. ruling) result (ruling_among (members_view members.now.entries)) }
{
    let points = points_of(integer_at(members, "points", Field::Points)?)?;
    let upheld = flag_at(members, "upheld", Field::Upheld)?;
    ruling_of(points, upheld)
}

/// The ruling that a body spells.
pub(crate) fn read_ruling(alloc: Global, body: &[u8]) -> Result<Ruling, RequestFault>
    ensures { GivesForm (λ ruling. ruling) result (ruling_in_body body.now) }
{
    let members = read_object(alloc, body, &["points", "upheld"])?;
    let ruling = ruling_among(&members);
    drop(members);
    ruling
}
