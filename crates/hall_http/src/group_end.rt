//! How a write for a group of requests ended.
ghost use Rattle.std.specs.Prelude.{◌≡◌, ◌≢◌, true, false};
ghost use Rattle.hall_http.specs.declared.group_end.GroupEnd.TheVariants as GroupEnd;

/// How the one write for a group of requests ended.
#[derive(Clone, Copy, Debug, PartialEq, Eq)]
pub(crate) enum GroupEnd {
    /// All that they change is stored, and each is told what was planned for it.
    Stored,
    /// Nothing of it is, and each is told 503.
    Refused,
    /// So it is, by a store that serves no more.
    Shut,
}

impl GroupEnd {
    /// Whether the store serves on, as far as this tells.
    pub(crate) fn goes_on(self) -> bool
        ensures opened { result ≡ true → self ≢ GroupEnd.Shut }
        ensures shut { result ≡ false → self ≡ GroupEnd.Shut }
    {
        match self {
            GroupEnd::Stored | GroupEnd::Refused => true,
            GroupEnd::Shut => false,
        }
    }
}
