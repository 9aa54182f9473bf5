//! What is worked on before a request is answered: the search, the table or the listing that its plan would make.
ghost use Rattle.std.specs.Prelude.{◌≡◌, ◌⊎◌, Ok};
ghost use Rattle.hall_store.specs.Store.{Asks, Kept};
ghost use Rattle.hall_desk.specs.Copies.{AreCopied};
ghost use Rattle.hall_desk.specs.Listings.{WaitsForListing};
ghost use Rattle.hall_desk.specs.Plans.{IsNobodys};
ghost use Rattle.hall_desk.specs.Searches.{WaitsAmong};
ghost use Rattle.hall_desk.specs.Tabling.{WaitsForTable};
ghost use Rattle.hall_desk.specs.Wanted.{IsPrepared, IsSearchFor};
ghost use Rattle.hall_desk.specs.declared.prepared.Prepared.TheVariants as Prepared;
ghost use Rattle.hall_desk.specs.declared.wanted_search.Wanted.{Wanted};

use crate::copies::Copies;
use crate::listing::prepare_listing;
use crate::memo::Memo;
use crate::prepared::Prepared;
use crate::tabling::prepare_table;
use crate::under_way::{Searches, search_on};
use crate::wanted_search::search_for;
use hall_policy::{Action, Request};
use hall_store::{ReadStore, StoreFault};
use std::alloc::Global;

/// Works for a while on what a plan of the request needs. Reads only.
pub(crate) fn prepare<S: ReadStore>(
    alloc: Global,
    store: &mut S,
    request: &Request,
    copies: &mut Copies,
    searches: &mut Option<Searches>,
    memo: &mut Option<Memo>,
) -> Prepared
    requires { AreCopied (S.content store.old) copies.old }
    ensures kept { Kept (S.content store.old) (S.content store.new) }
    ensures untouched { IsNobodys request.now → store.new ≡ store.old }
    ensures copied { AreCopied (S.content store.new) copies.new }
    ensures ready { result ≡ Prepared.Ready → Asks (S.content store.new)
        (λ world. IsPrepared world request.now memo.new) }
    ensures waits { result ≡ Prepared.Waits → WaitsForTable (S.content store.new) request.now copies.old copies.new
        ⊎ WaitsForListing (S.content store.new) request.now copies.old.listings copies.new.listings
        ⊎ ((wanted : Wanted) × WaitsAmong searches.old wanted searches.new
        × Asks (S.content store.new) (λ world. IsSearchFor world request.now wanted)) }
{
    match &request.action {
        Action::Table { round } => {
            unless_failed(prepare_table(alloc, store, request, round, copies))
        }
        Action::Answers { round } => {
            let listings = &mut copies.listings;
            unless_failed(prepare_listing(alloc, store, request, round, listings))
        }
        _ => prepare_search(alloc, store, request, searches, memo),
    }
}

/// What came of a slice. Where the store failed, as at a row of people that is no record, the plan asks it again, and
/// needs no people.
fn unless_failed(prepared: Result<Prepared, StoreFault>) -> Prepared
    ensures { result ≡ Prepared.Waits → prepared ≡ Ok Prepared.Waits }
{
    match prepared {
        Ok(prepared) => prepared,
        Err(StoreFault::Failed) => Prepared::Ready,
        Err(StoreFault::Memory) => Prepared::Refused,
    }
}

/// Works for a while on the search that a plan of the request needs.
fn prepare_search<S: ReadStore>(
    alloc: Global,
    store: &mut S,
    request: &Request,
    searches: &mut Option<Searches>,
    memo: &mut Option<Memo>,
) -> Prepared
    ensures kept { Kept (S.content store.old) (S.content store.new) }
    ensures untouched { IsNobodys request.now → store.new ≡ store.old }
    ensures ready { result ≡ Prepared.Ready → Asks (S.content store.new)
        (λ world. IsPrepared world request.now memo.new) }
    ensures waits { result ≡ Prepared.Waits → (wanted : Wanted) × WaitsAmong searches.old wanted searches.new
        × Asks (S.content store.new) (λ world. IsSearchFor world request.now wanted) }
{
    match search_for(alloc, store, request, memo) {
        Ok(Some(wanted)) => search_on(alloc, searches, memo, wanted),
        Ok(None) => Prepared::Ready,
        Err(_) => Prepared::Refused,
    }
}
