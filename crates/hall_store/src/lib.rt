//! What keeps the hall's world: a trait of its reads, a trait of the whole, ordered maps, and a cache before a store.
#![tactic(auto)]

mod answer_reads;
mod cache;
mod cached_store;
mod change;
mod fault;
mod joint;
mod map_adds;
mod map_calls;
mod map_reads;
mod map_store;
mod protest_reads;
mod slot;
mod store;
mod whole;
mod writes;

pub use cached_store::CachedStore;
pub use change::{Change, RoundFlag};
pub use fault::StoreFault;
pub use joint::{JointAnswers, MOST_TOGETHER};
pub use map_store::MapStore;
pub use store::{PEOPLE_AT_ONCE, ReadStore, Store};
pub use whole::{Place, Tester, WholeStore};
