//! The copies of replies that a desk keeps, and the table and the listing that it is making.
ghost use Rattle.std.specs.Prelude.{◌≡◌, None, false};

use crate::listing::Listings;
use crate::round_copy::RoundCopy;
use crate::rows::Rows;
use crate::slices::Slices;
use crate::table_copy::TableCopy;
use hall_score::Tally;

/// The tally of a round's table, which has taken the round's protests, and its answers by entrants up to the name.
pub(crate) type Tabling = Slices<Tally>;

/// Of the tables that were made last, and of the round that was read last, until what they tell of is changed; the
/// tally of a table that is being made, until its round is changed; and the listings of answers.
#[derive(Drop)]
pub(crate) struct Copies {
    pub(crate) tables: Option<Rows<TableCopy>>,
    pub(crate) round: Option<RoundCopy>,
    pub(crate) tabling: Option<Tabling>,
    pub(crate) listings: Listings,
}

impl Copies {
    /// Of nothing.
    pub(crate) fn none() -> Copies
        ensures { result ≡ record {
          tables = None;
          round = None;
          tabling = None;
          listings = record { listing = None; listed = None; spoilt = false };
        } }
    {
        Copies {
            tables: None,
            round: None,
            tabling: None,
            listings: Listings::none(),
        }
    }
}
