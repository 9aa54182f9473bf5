//! A database that files were given back.
ghost use Rattle.std.specs.Prelude.{◌≡◌};

/// A database that was given back. Nothing can be read of it or written to it any more.
#[derive(Drop)]
pub struct GivenBack<C> {
    conn: C,
}

impl<C> GivenBack<C> {
    /// The connection as it is, which nobody else can reach from now on.
    pub(crate) fn new(conn: C) -> GivenBack<C>
        ensures { result.conn ≡ conn }
    {
        GivenBack { conn }
    }
}
