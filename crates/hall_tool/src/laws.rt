//! Laws of the definitions, each the contract of a function that does nothing.
ghost use Rattle.sqlite.specs.Held.{state};
ghost use Rattle.hall_tool.specs.Advice.{AreFaultsTold};
ghost use Rattle.hall_tool.specs.Migrate.{KeepsSanity};
ghost use Rattle.hall_tool.specs.Words.{AreSpelled, SpellOneCommand};

use hall_sql::{OldStore, SqlStore};
use sqlite::Alter;

/// Each command has words that spell it, and no words spell two.
pub fn law_words()
    ensures spelled { AreSpelled }
    ensures one { SpellOneCommand }
{}

/// Each fault is told on two lines, of which the second is its own and has the words for what failed; and a word that
/// is no text on one line, unlike these.
pub fn law_advice()
    ensures { AreFaultsTold }
{}

/// A migration that was done keeps a sane world: from a source, which is left so, into a target, which becomes the new
/// one.
pub fn law_migration<S: Alter + Drop, T: Alter + Drop>(
    source: &OldStore<S>,
    left: &OldStore<S>,
    old: &SqlStore<T>,
    new: &SqlStore<T>,
)
    ensures { KeepsSanity (state S.Store source.now) (state S.Store left.now)
        (state T.Store old.now) (state T.Store new.now) }
{
    let _source = source;
    let _left = left;
    let _old = old;
    let _new = new;
}
