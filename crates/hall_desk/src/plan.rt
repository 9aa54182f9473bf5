//! What a request will be answered and will change.
ghost use Rattle.std.specs.Prelude.{◌≡◌, None};
ghost use Rattle.hall_desk.specs.Plan.{planned_reply};

use crate::reply::Reply;
use hall_solve::Visits;
use hall_store::Change;

/// What a request will be answered, and what it will change.
#[derive(Drop)]
pub struct Plan {
    pub(crate) reply: Reply,
    pub(crate) change: Change,
    /// The visits of the search that was made for it, where one was.
    pub(crate) visits: Option<Visits>,
}

impl Plan {
    /// The plan that answers so, and changes nothing.
    pub(crate) fn of(reply: Reply) -> Plan
        ensures { result ≡ record { reply = reply; change = Change.Nothing; visits = None } }
    {
        Plan {
            reply,
            change: Change::Nothing,
            visits: None,
        }
    }

    /// The reply, lent before the change is made.
    pub fn reply(&self) -> &Reply
        ensures { result.now ≡ planned_reply self.now }
    {
        &self.reply
    }
}
