//! The answers of a round by slices of its entrants, so that nobody waits for the whole of what is made of them.
ghost use Rattle.std.specs.Prelude.{◌≡◌, IsTrue, Some, None};
ghost use Rattle.hall_store.specs.Store.{Asks, Kept, Served, is_after};
ghost use Rattle.hall_desk.specs.Slices.{ComeOn, GoOn, TakesOn};

use hall_policy::{AnswerRow, Name, RoundId, Sink};
use hall_store::{PEOPLE_AT_ONCE, ReadStore, StoreFault};
use std::alloc::Global;

/// What has taken a round's answers by entrants up to the name: none before the first slice.
#[derive(Drop)]
pub(crate) struct Slices<K> {
    pub(crate) round: RoundId,
    pub(crate) taken: K,
    pub(crate) after: Option<Name>,
}

/// What came of a slice.
#[derive(Drop)]
pub(crate) enum Sliced<K> {
    /// More answers may be left.
    On(Slices<K>),
    /// All answers of the round are taken.
    Whole { round: RoundId, taken: K },
}

impl<K: Sink<AnswerRow> + Drop> Slices<K> {
    /// Takes the answers by the next people, and all that are left once there are no more people.
    pub(crate) fn go_on<S: ReadStore>(
        self,
        alloc: Global,
        store: &mut S,
    ) -> Result<Sliced<K>, StoreFault>
        ensures kept { Kept (S.content store.old) (S.content store.new) }
        ensures sliced { Served (S.content store.new) result (λ world sliced. GoOn K.takes world self sliced) }
    {
        let people = store.people_after(alloc, &self.after)?;
        match people.get(PEOPLE_AT_ONCE - 1) {
            Some(person) => {
                let slices = self.up_to(alloc, store, person.name.clone()?)?;
                Ok(Sliced::On(slices))
            }
            None => self.to_end(alloc, store),
        }
    }

    /// Takes the answers by entrants up to the name, which is a later one.
    fn up_to<S: ReadStore>(
        self,
        alloc: Global,
        store: &mut S,
        name: Name,
    ) -> Result<Slices<K>, StoreFault>
        requires { Asks (S.content store.old) (λ _. IsTrue (is_after self.after name)) }
        ensures kept { Kept (S.content store.old) (S.content store.new) }
        ensures on { Served (S.content store.new) result (λ world slices.
            ComeOn self slices × TakesOn K.takes world self slices.after slices.taken) }
    {
        let Slices {
            round,
            mut taken,
            after,
        } = self;
        let last = Some(name);
        store.feed_answers(alloc, &round, &after, &last, &mut taken)?;
        Ok(Slices {
            round,
            taken,
            after: last,
        })
    }

    /// Takes the answers that are left.
    fn to_end<S: ReadStore>(self, alloc: Global, store: &mut S) -> Result<Sliced<K>, StoreFault>
        ensures kept { Kept (S.content store.old) (S.content store.new) }
        ensures sliced { Served (S.content store.new) result (λ world sliced. GoOn K.takes world self sliced) }
    {
        let Slices {
            round,
            mut taken,
            after,
        } = self;
        store.feed_answers(alloc, &round, &after, &None, &mut taken)?;
        Ok(Sliced::Whole { round, taken })
    }
}
