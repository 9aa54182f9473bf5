//! What a connection sends.
ghost use Rattle.std.specs.Prelude.{◌≡◌, ◌≤◌, ◌++◌, List, ℕ, drop, length};
ghost use Rattle.hall_http.specs.Outgoing.{outgoing_text};

use crate::answer::Answer;

/// The reply to bytes that are no request. It takes no memory.
const REFUSAL: &str =
    "HTTP/1.1 400 Bad Request\r\nContent-Type: application/json\r\nContent-Length: 13\r\n\r\n{\"form\":\"F7\"}";

/// What a connection has to send.
#[derive(Drop)]
pub enum Outgoing {
    Nothing,
    /// The reply to bytes that are no request.
    Refusal,
    /// The reply to a request.
    Reply(Answer),
}

impl Outgoing {
    /// Its bytes, in two parts.
    fn parts(&self) -> (&[u8], &[u8])
        ensures { result.0.now ++ result.1.now ≡ outgoing_text self.now }
    {
        match self {
            Outgoing::Nothing => (&[], &[]),
            Outgoing::Refusal => (REFUSAL.as_bytes(), &[]),
            Outgoing::Reply(answer) => answer.parts(),
        }
    }

    /// How many bytes it has.
    pub(crate) fn len(&self) -> usize
        ensures { result ≡ length (outgoing_text self.now) }
    {
        match self {
            Outgoing::Nothing => 0,
            Outgoing::Refusal => REFUSAL.len(),
            Outgoing::Reply(answer) => answer.len(),
        }
    }

    /// Its bytes from the place on, in two parts.
    pub(crate) fn parts_from(&self, place: usize) -> (&[u8], &[u8])
        requires { place ≤ length (outgoing_text self.now) }
        ensures { result.0.now ++ result.1.now ≡ drop place (outgoing_text self.now) }
    {
        let (head, body) = self.parts();
        if place < head.len() {
            (&head[place..], body)
        } else {
            (&[], &body[place - head.len()..])
        }
    }

    /// Its bytes from the place on, or a first part of them: some, where any are left.
    pub fn from(&self, place: usize) -> &[u8]
        requires { place ≤ length (outgoing_text self.now) }
        ensures part { (rest : List ℕ) × (result.now ++ rest ≡ drop place (outgoing_text self.now)) }
        ensures some { length result.now ≡ 0 → length (drop place (outgoing_text self.now)) ≡ 0 }
    {
        let (head, body) = self.parts_from(place);
        if head.is_empty() { body } else { head }
    }
}
