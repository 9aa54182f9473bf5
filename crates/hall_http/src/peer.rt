//! The other side of one open connection.
ghost use Rattle.std.specs.Prelude.{◌≡◌, ◌<◌, ◌≤◌, [], ◌∷◌, ◌++◌, false, length, take, drop};
ghost use Rattle.hall_http.specs.Outgoing.{outgoing_text};
ghost use Rattle.hall_http.specs.declared.peer.Call.TheVariants as Call;
ghost use Rattle.hall_http.specs.Peer.{Traffic, broke_after, moved, over_after, reads_after, then_hung_up};

use crate::outgoing::Outgoing;

/// What came of one call, which waits for nothing.
#[derive(Clone, Copy, Debug, PartialEq, Eq)]
pub enum Moved {
    /// So many bytes moved.
    Some(usize),
    /// None, and it would have to wait.
    Wait,
    /// None, and no more will.
    None,
}

/// A call of the other side.
#[derive(Clone, Copy, Debug, PartialEq, Eq)]
pub enum Call {
    /// A read.
    Receive,
    /// A send.
    Send,
}

/// The other side of one open connection.
pub trait Peer {
    /// Its number among all that its sockets handed out, all bytes that were read of it, how many reads gave them, and
    /// all that it was sent; and whether a read told that no more comes, or failed; a send told that no more goes; it
    /// was told that no more is sent. And all calls of it, in order, with what each told.
    ghost traffic: { Self → Traffic };

    /// Reads once, at the front of the chunk.
    fn receive(&mut self, chunk: &mut [u8; 4096]) -> Moved
        ensures bound { moved result ≤ 4096 }
        ensures number { (traffic self.new).number ≡ (traffic self.old).number }
        ensures came { (traffic self.new).came ≡ (traffic self.old).came ++ take (moved result) chunk.new }
        ensures reads { (traffic self.new).reads ≡ reads_after (traffic self.old).reads result }
        ensures went { (traffic self.new).went ≡ (traffic self.old).went }
        ensures over { (traffic self.new).over ≡ over_after (traffic self.old).over result }
        ensures broke { (traffic self.new).broke ≡ (traffic self.old).broke }
        ensures hung_up { (traffic self.new).hung_up ≡ (traffic self.old).hung_up }
        ensures calls { (traffic self.new).calls ≡ (traffic self.old).calls ++ (Call.Receive, result) ∷ [] };

    /// Sends once, from this byte on, which is one of those that there are; unless it was told that no more is sent.
    fn send(&mut self, bytes: &Outgoing, from: usize) -> Moved
        requires from { from < length (outgoing_text bytes.now) }
        requires hung_up { (traffic self.old).hung_up ≡ false }
        ensures bound { moved result ≤ length (drop from (outgoing_text bytes.now)) }
        ensures number { (traffic self.new).number ≡ (traffic self.old).number }
        ensures came { (traffic self.new).came ≡ (traffic self.old).came }
        ensures reads { (traffic self.new).reads ≡ (traffic self.old).reads }
        ensures went { (traffic self.new).went ≡
            (traffic self.old).went ++ take (moved result) (drop from (outgoing_text bytes.now)) }
        ensures over { (traffic self.new).over ≡ (traffic self.old).over }
        ensures broke { (traffic self.new).broke ≡ broke_after (traffic self.old).broke result }
        ensures hung_up { (traffic self.new).hung_up ≡ (traffic self.old).hung_up }
        ensures calls { (traffic self.new).calls ≡ (traffic self.old).calls ++ (Call.Send, result) ∷ [] };

    /// Tells it that no more is sent.
    fn end_sending(&mut self)
        ensures { traffic self.new ≡ then_hung_up (traffic self.old) };
}

/// The other side of a connection that is over. Nothing can be read of it or sent to it any more.
#[derive(Drop)]
pub struct Closed<P> {
    peer: P,
}

impl<P> Closed<P> {
    /// The peer as it is, which nobody else can reach from now on.
    pub(crate) fn new(peer: P) -> Closed<P>
        ensures { result.peer ≡ peer }
    {
        Closed { peer }
    }
}
