//! The status of a reply, and the type of its body.
ghost use Rattle.std.specs.Prelude.{◌≡◌};
ghost use Rattle.hall_http.specs.Reply.{status_words, media_words};

/// The status of a reply.
#[derive(Clone, Copy, Debug, PartialEq, Eq)]
pub(crate) enum Status {
    /// 200
    Ok,
    /// 400
    BadRequest,
    /// 403
    Forbidden,
    /// 404
    NotFound,
    /// 503
    Unavailable,
}

impl Status {
    /// Its three digits and its reason.
    pub(crate) fn words(self) -> &'static str
        ensures { result.now ≡ status_words self }
    {
        match self {
            Status::Ok => "200 OK",
            Status::BadRequest => "400 Bad Request",
            Status::Forbidden => "403 Forbidden",
            Status::NotFound => "404 Not Found",
            Status::Unavailable => "503 Service Unavailable",
        }
    }
}

/// The type of a reply's body.
#[derive(Clone, Copy, Debug, PartialEq, Eq)]
pub(crate) enum MediaType {
    Plain,
    Json,
}

impl MediaType {
    /// Its name.
    pub(crate) fn words(self) -> &'static str
        ensures { result.now ≡ media_words self }
    {
        match self {
            MediaType::Plain => "text/plain",
            MediaType::Json => "application/json",
        }
    }
}
