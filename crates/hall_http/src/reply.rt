//! The bytes of replies.
ghost use Rattle.std.specs.Prelude.{◌≡◌, ◌++◌, IfOk, OnOk, codes, decimal, string_bytes};
ghost use Rattle.serde_json.specs.Written.{compact_text};
ghost use Rattle.hall_http.specs.Reply.{import_data, put_puzzle_data, read_puzzle_data};
ghost use Rattle.hall_http.specs.Reply.{certify_data};
ghost use Rattle.hall_http.specs.Reply.{list_puzzles_data, put_round_data, release_data};
ghost use Rattle.hall_http.specs.Reply.{list_rounds_data, solutions_data, sheet_fault_data};
ghost use Rattle.hall_http.specs.Reply.{protest_data, protests_data};
ghost use Rattle.hall_http.specs.Reply.{rule_protest_data, publish_data};
ghost use Rattle.hall_http.specs.Reply.{read_round_data, submit_data, denied_data};
ghost use Rattle.hall_http.specs.Reply.{reply_data, reply_status, denied_status, field_text};
ghost use Rattle.hall_http.specs.Reply.{form_data, field_data, place_data, puzzle_fault_data, fault_data, fault_status};
ghost use Rattle.hall_desk.specs.Telling.{AddsTokens, tokens_of};
ghost use Rattle.hall_http.specs.Reply.{head_bytes, text_behind, wire_bytes, IsCounted, IsJson, BytesOf};
ghost use Rattle.hall_http.specs.Reply.{FaultBytesOf};

use crate::form::{Field, FormFault, PuzzleFault};
use crate::row::{mode_at, points_at, rows_at, rows_room, ruling_at, state_at};
use crate::status::{MediaType, Status};
use hall_desk::{ProtestLine, PuzzleLine, Reply, RoundLine, Rows, ShownRound, StateName, Telling};
use hall_grid::Broken;
use hall_policy::{AnswerNumber, AnswerText, PuzzleKey, PuzzleText, RoundId, Ruling, Token};
use hall_sheet::Refusal;
use std::alloc::{AllocError, Global};

/// The reply where memory runs out, or where the database or the clock fails. To make it takes no memory.
pub(crate) const UNAVAILABLE: &str = "\
HTTP/1.1 503 Service Unavailable\r\nContent-Type: application/json\r\nContent-Length: 16\r\n\r\n\
{\"fault\":\"hall\"}";

/// Room for what stands before a reply's body, and for a body of a few members.
const HEAD_ROOM: usize = 256;

/// The bytes of a reply: the status line, two header lines, an empty line and the body.
pub(crate) fn reply_bytes(alloc: Global, reply: &Reply) -> Result<String, AllocError>
    ensures { IfOk result (λ bytes. BytesOf reply.now (string_bytes bytes)) }
{
    match reply {
        Reply::Unavailable => String::from_str(alloc, UNAVAILABLE),
        Reply::Answers(text) => write_reply(alloc, Status::Ok, MediaType::Json, text.as_str()),
        Reply::Table(text) => write_reply(alloc, Status::Ok, MediaType::Plain, text.as_str()),
        _ => told_bytes(alloc, reply),
    }
}

/// The front of a reply's bytes: all but the text that it brings along, where both together can be counted.
pub(crate) fn front_bytes(alloc: Global, reply: &Reply) -> Result<String, AllocError>
    ensures written { IfOk result (λ front. BytesOf reply.now (string_bytes front ++ text_behind reply.now)) }
    ensures counted { IfOk result (λ front. IsCounted reply.now (string_bytes front)) }
{
    match reply {
        Reply::Answers(text) => {
            let size = text.len();
            let head = head_text(alloc, Status::Ok, MediaType::Json, size)?;
            match head.len().checked_add(size) {
                Some(_) => Ok(head),
                None => Err(AllocError),
            }
        }
        _ => reply_bytes(alloc, reply),
    }
}

/// The bytes of a reply that is told in JSON.
fn told_bytes(alloc: Global, reply: &Reply) -> Result<String, AllocError>
    requires { IsJson reply.now }
    ensures { IfOk result (λ bytes. BytesOf reply.now (string_bytes bytes)) }
{
    let body = reply_text(alloc, reply)?;
    with_head(alloc, reply_status(reply), MediaType::Json, body)
}

/// The bytes of the reply to bytes that are no request.
pub(crate) fn fault_bytes(alloc: Global, fault: FormFault) -> Result<String, AllocError>
    ensures { IfOk result (λ bytes. FaultBytesOf fault (string_bytes bytes)) }
{
    let body = fault_text(alloc, fault)?;
    with_head(alloc, fault_status(fault), MediaType::Json, body)
}

/// The bytes of a reply whose body stands ready. The head goes first, so that a large body is copied once.
fn write_reply(
    alloc: Global,
    status: Status,
    media: MediaType,
    body: &str,
) -> Result<String, AllocError>
    ensures { IfOk result (λ bytes. string_bytes bytes ≡ wire_bytes status media body.now) }
{
    let head = head_text(alloc, status, media, body.len())?;
    let mut bytes = String::with_capacity(alloc, head.len().saturating_add(body.len()))?;
    bytes.push_str(head.as_str())?;
    bytes.push_str(body)?;
    Ok(bytes)
}

/// The bytes of a reply with this body. They are the body's own, moved on behind the head: a large one is there once.
fn with_head(
    alloc: Global,
    status: Status,
    media: MediaType,
    body: String,
) -> Result<String, AllocError>
    ensures { IfOk result (λ bytes. string_bytes bytes ≡ wire_bytes status media (string_bytes body)) }
{
    let head = head_text(alloc, status, media, body.len())?;
    let mut bytes = body;
    bytes.insert_str(0, head.as_str())?;
    Ok(bytes)
}

/// What stands before a body of so many bytes.
fn head_text(
    alloc: Global,
    status: Status,
    media: MediaType,
    size: usize,
) -> Result<String, AllocError>
    ensures { IfOk result (λ head. string_bytes head
        ≡ head_bytes status media ++ (codes "\r\nContent-Length: " ++ (decimal size ++ codes "\r\n\r\n"))) }
{
    let mut head = String::with_capacity(alloc, HEAD_ROOM)?;
    push_head(&mut head, status, media)?;
    let length = format!(in alloc; "\r\nContent-Length: {}\r\n\r\n", size)?;
    head.push_str(length.as_str())?;
    Ok(head)
}

/// Writes the status line and the type of the body.
fn push_head(bytes: &mut String, status: Status, media: MediaType) -> Result<(), AllocError>
    ensures { OnOk result (string_bytes bytes.new ≡ string_bytes bytes.old ++ head_bytes status media) }
{
    bytes.push_str("HTTP/1.1 ")?;
    bytes.push_str(status.words())?;
    bytes.push_str("\r\nContent-Type: ")?;
    bytes.push_str(media.words())
}

/// The status of a reply.
fn reply_status(reply: &Reply) -> Status
    requires { IsJson reply.now }
    ensures { result ≡ reply_status reply.now }
{
    match reply {
        Reply::Denied(rule) => denied_status(*rule),
        Reply::Unavailable => unreachable!(),
        Reply::Import(_)
        | Reply::PutPuzzle { .. }
        | Reply::ReadPuzzle { .. }
        | Reply::ListPuzzles(_)
        | Reply::Certify(_)
        | Reply::PutRound(_)
        | Reply::Release(_)
        | Reply::ListRounds(_)
        | Reply::ReadRound(_)
        | Reply::Submit { .. }
        | Reply::Solutions(_)
        | Reply::Protest(_)
        | Reply::Protests(_)
        | Reply::RuleProtest(_)
        | Reply::Publish(_) => Status::Ok,
        Reply::Answers(_) | Reply::Table(_) => unreachable!(),
    }
}

/// The status of a denial by the rule.
fn denied_status(rule: u8) -> Status
    ensures { result ≡ denied_status rule }
{
    if rule == 4 {
        Status::NotFound
    } else {
        Status::Forbidden
    }
}

/// The status for bytes that are no request.
fn fault_status(fault: FormFault) -> Status
    ensures { result ≡ fault_status fault }
{
    match fault {
        FormFault::NoRoute => Status::NotFound,
        FormFault::Syntax
        | FormFault::Missing(_)
        | FormFault::Range(_)
        | FormFault::Puzzle(_)
        | FormFault::Sheet(_)
        | FormFault::NotWhole => Status::BadRequest,
    }
}

/// The JSON text of a reply.
fn reply_text(alloc: Global, reply: &Reply) -> Result<String, AllocError>
    requires { IsJson reply.now }
    ensures { IfOk result (λ text. string_bytes text ≡ compact_text (reply_data reply.now)) }
{
    let mut told = Telling::new(alloc, reply_room(reply))?;
    tell_reply(alloc, &mut told, reply)?;
    Ok(told.into_text())
}

/// About how many bytes a reply takes. No clause speaks of it.
fn reply_room(reply: &Reply) -> usize {
    let rows = match reply {
        Reply::ListPuzzles(lines) => rows_room(lines.as_slice()),
        Reply::ListRounds(lines) => rows_room(lines.as_slice()),
        Reply::ReadRound(round) => rows_room(round.puzzles.as_slice()).saturating_add(256),
        Reply::Solutions(texts) => rows_room(texts.as_slice()),
        Reply::Protests(lines) => rows_room(lines.as_slice()),
        _ => 0,
    };
    rows.saturating_add(HEAD_ROOM)
}

/// Tells a reply.
fn tell_reply(alloc: Global, told: &mut Telling, reply: &Reply) -> Result<(), AllocError>
    requires { IsJson reply.now }
    ensures { OnOk result (AddsTokens told.old told.new (tokens_of (reply_data reply.now))) }
{
    match reply {
        Reply::Denied(rule) => tell_denied(told, *rule),
        Reply::Unavailable => unreachable!(),
        Reply::Import(added) => tell_import(told, *added),
        Reply::PutPuzzle { state, text } => tell_put_puzzle(told, *state, text),
        Reply::ReadPuzzle { key, state, text } => tell_read_puzzle(told, key, *state, text),
        Reply::ListPuzzles(lines) => tell_list_puzzles(alloc, told, lines),
        Reply::Certify(state) => tell_certify(told, *state),
        Reply::PutRound(round) => tell_put_round(told, round),
        Reply::Release(round) => tell_release(told, round),
        Reply::ListRounds(lines) => tell_list_rounds(alloc, told, lines),
        Reply::ReadRound(round) => tell_read_round(alloc, told, round),
        Reply::Submit { n, verdict } => tell_submit(alloc, told, *n, *verdict),
        Reply::Answers(_) => unreachable!(),
        Reply::Solutions(texts) => tell_solutions(alloc, told, texts),
        Reply::Protest(token) => tell_protest(told, token),
        Reply::Protests(lines) => tell_protests(alloc, told, lines),
        Reply::RuleProtest(ruling) => tell_rule_protest(told, *ruling),
        Reply::Publish(round) => tell_publish(told, round),
        Reply::Table(_) => unreachable!(),
    }
}

fn tell_denied(told: &mut Telling, rule: u8) -> Result<(), AllocError>
    ensures { OnOk result (AddsTokens told.old told.new (tokens_of (denied_data rule))) }
{
    told.open()?;
    told.number_at("denied", u64::from(rule))?;
    told.close()
}

fn tell_import(told: &mut Telling, added: u64) -> Result<(), AllocError>
    ensures { OnOk result (AddsTokens told.old told.new (tokens_of (import_data added))) }
{
    told.open()?;
    told.number_at("added", added)?;
    told.close()
}

fn tell_put_puzzle(
    told: &mut Telling,
    state: StateName,
    text: &PuzzleText,
) -> Result<(), AllocError>
    ensures { OnOk result (AddsTokens told.old told.new (tokens_of (put_puzzle_data state text.now))) }
{
    told.open()?;
    state_at(told, state)?;
    told.checked_at("text", text)?;
    told.close()
}

fn tell_read_puzzle(
    told: &mut Telling,
    key: &PuzzleKey,
    state: StateName,
    text: &PuzzleText,
) -> Result<(), AllocError>
    ensures { OnOk result (AddsTokens told.old told.new (tokens_of (read_puzzle_data key.now state text.now))) }
{
    told.open()?;
    told.checked_at("author", &key.author)?;
    told.checked_at("label", &key.label)?;
    state_at(told, state)?;
    told.checked_at("text", text)?;
    told.close()
}

fn tell_list_puzzles(
    alloc: Global,
    told: &mut Telling,
    lines: &Rows<PuzzleLine>,
) -> Result<(), AllocError>
    ensures { OnOk result (AddsTokens told.old told.new (tokens_of (list_puzzles_data lines.now))) }
{
    told.open()?;
    rows_at(alloc, told, "puzzles", lines)?;
    told.close()
}

fn tell_certify(told: &mut Telling, state: StateName) -> Result<(), AllocError>
    ensures { OnOk result (AddsTokens told.old told.new (tokens_of (certify_data state))) }
{
    told.open()?;
    state_at(told, state)?;
    told.close()
}

fn tell_put_round(told: &mut Telling, round: &RoundId) -> Result<(), AllocError>
    ensures { OnOk result (AddsTokens told.old told.new (tokens_of (put_round_data round.now))) }
{
    told.open()?;
    told.checked_at("round", round)?;
    told.close()
}

fn tell_release(told: &mut Telling, round: &RoundId) -> Result<(), AllocError>
    ensures { OnOk result (AddsTokens told.old told.new (tokens_of (release_data round.now))) }
{
    told.open()?;
    told.checked_at("released", round)?;
    told.close()
}

fn tell_list_rounds(
    alloc: Global,
    told: &mut Telling,
    lines: &Rows<RoundLine>,
) -> Result<(), AllocError>
    ensures { OnOk result (AddsTokens told.old told.new (tokens_of (list_rounds_data lines.now))) }
{
    told.open()?;
    rows_at(alloc, told, "rounds", lines)?;
    told.close()
}

fn tell_read_round(alloc: Global, told: &mut Telling, round: &ShownRound) -> Result<(), AllocError>
    ensures { OnOk result (AddsTokens told.old told.new (tokens_of (read_round_data round.now))) }
{
    told.open()?;
    told.within_at("bonus", round.bonus)?;
    told.checked_at("id", &round.id)?;
    told.within_at("minutes", round.minutes)?;
    mode_at(told, round.mode)?;
    told.within_at("penalty", round.penalty)?;
    told.within_at("protest_minutes", round.protest_minutes)?;
    rows_at(alloc, told, "puzzles", &round.puzzles)?;
    told.within_at("start", round.start)?;
    told.checked_at("title", &round.title)?;
    told.close()
}

fn tell_submit(
    alloc: Global,
    told: &mut Telling,
    n: AnswerNumber,
    verdict: Option<Broken>,
) -> Result<(), AllocError>
    ensures { OnOk result (AddsTokens told.old told.new (tokens_of (submit_data n verdict))) }
{
    told.open()?;
    told.within_at("received", n)?;
    told.end_with_verdict(alloc, verdict)
}

fn tell_solutions(
    alloc: Global,
    told: &mut Telling,
    texts: &Rows<AnswerText>,
) -> Result<(), AllocError>
    ensures { OnOk result (AddsTokens told.old told.new (tokens_of (solutions_data texts.now))) }
{
    told.open()?;
    rows_at(alloc, told, "solutions", texts)?;
    told.close()
}

fn tell_protest(told: &mut Telling, token: &Token) -> Result<(), AllocError>
    ensures { OnOk result (AddsTokens told.old told.new (tokens_of (protest_data token.now))) }
{
    told.open()?;
    told.checked_at("protest", token)?;
    told.close()
}

fn tell_protests(
    alloc: Global,
    told: &mut Telling,
    lines: &Rows<ProtestLine>,
) -> Result<(), AllocError>
    ensures { OnOk result (AddsTokens told.old told.new (tokens_of (protests_data lines.now))) }
{
    told.open()?;
    rows_at(alloc, told, "protests", lines)?;
    told.close()
}

fn tell_rule_protest(told: &mut Telling, ruling: Ruling) -> Result<(), AllocError>
    ensures { OnOk result (AddsTokens told.old told.new (tokens_of (rule_protest_data ruling))) }
{
    let ruling = Some(ruling);
    told.open()?;
    points_at(told, &ruling)?;
    ruling_at(told, "ruled", &ruling)?;
    told.close()
}

fn tell_publish(told: &mut Telling, round: &RoundId) -> Result<(), AllocError>
    ensures { OnOk result (AddsTokens told.old told.new (tokens_of (publish_data round.now))) }
{
    told.open()?;
    told.checked_at("published", round)?;
    told.close()
}

/// The JSON text of the reply to bytes that are no request.
fn fault_text(alloc: Global, fault: FormFault) -> Result<String, AllocError>
    ensures { IfOk result (λ text. string_bytes text ≡ compact_text (fault_data fault)) }
{
    let mut told = Telling::new(alloc, HEAD_ROOM)?;
    tell_fault(&mut told, fault)?;
    Ok(told.into_text())
}

/// The member that a fault names.
fn field_text(field: Field) -> &'static str
    ensures { result.now ≡ field_text field }
{
    match field {
        Field::Answer => "answer",
        Field::Text => "text",
        Field::Budget => "budget",
        Field::Number => "number",
        Field::Points => "points",
        Field::Upheld => "upheld",
    }
}

fn tell_form(told: &mut Telling, form: &str) -> Result<(), AllocError>
    ensures { OnOk result (AddsTokens told.old told.new (tokens_of (form_data form.now))) }
{
    told.open()?;
    told.text_at("form", form)?;
    told.close()
}

fn tell_field(told: &mut Telling, field: &str, form: &str) -> Result<(), AllocError>
    ensures { OnOk result (AddsTokens told.old told.new (tokens_of (field_data field.now form.now))) }
{
    told.open()?;
    told.text_at("field", field)?;
    told.text_at("form", form)?;
    told.close()
}

fn tell_place(told: &mut Telling, form: &str, place: usize) -> Result<(), AllocError>
    ensures { OnOk result (AddsTokens told.old told.new (tokens_of (place_data form.now place))) }
{
    told.open()?;
    told.text_at("form", form)?;
    told.number_at("place", place as u64)?;
    told.close()
}

/// Tells the reply to a text that is no puzzle.
fn tell_puzzle_fault(told: &mut Telling, fault: PuzzleFault) -> Result<(), AllocError>
    ensures { OnOk result (AddsTokens told.old told.new (tokens_of (puzzle_fault_data fault))) }
{
    match fault {
        PuzzleFault::Kind => tell_form(told, "E2"),
        PuzzleFault::SizeField => tell_form(told, "E3"),
        PuzzleFault::SizeLimit => tell_form(told, "E4"),
        PuzzleFault::Strange(place) => tell_place(told, "E5", place),
        PuzzleFault::Cut(place) => tell_place(told, "E6", place),
        PuzzleFault::Range(place) => tell_place(told, "E7", place),
        PuzzleFault::After(place) => tell_place(told, "E8", place),
    }
}

/// Tells the reply to bytes that are no entry list or round sheet.
fn tell_sheet_fault(told: &mut Telling, refusal: Refusal) -> Result<(), AllocError>
    ensures { OnOk result (AddsTokens told.old told.new (tokens_of (sheet_fault_data refusal))) }
{
    match refusal {
        Refusal::Syntax => tell_form(told, "F1"),
        Refusal::Missing(field) => tell_field(told, field.name(), "F2"),
        Refusal::Range(field) => tell_field(told, field.name(), "F3"),
        Refusal::Repeated => tell_form(told, "F4"),
        Refusal::Start => tell_form(told, "F5"),
        Refusal::Zone => tell_field(told, "zone", "F8"),
    }
}

/// Tells the reply to bytes that are no request.
fn tell_fault(told: &mut Telling, fault: FormFault) -> Result<(), AllocError>
    ensures { OnOk result (AddsTokens told.old told.new (tokens_of (fault_data fault))) }
{
    match fault {
        FormFault::Syntax => tell_form(told, "F1"),
        FormFault::Missing(field) => tell_field(told, field_text(field), "F2"),
        FormFault::Range(field) => tell_field(told, field_text(field), "F3"),
        FormFault::Puzzle(found) => tell_puzzle_fault(told, found),
        FormFault::Sheet(refusal) => tell_sheet_fault(told, refusal),
        FormFault::NoRoute => tell_form(told, "F6"),
        FormFault::NotWhole => tell_form(told, "F7"),
    }
}
