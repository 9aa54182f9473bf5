//! Lists in replies.
ghost use Rattle.std.specs.Prelude.{◌≡◌, ◌++◌, ◌∷◌, [], List, OnOk, OnErr};

use std::alloc::AllocError;
use std::marker::Model;

/// Rows in their order; a contract sees the list.
#[derive(Drop)]
pub struct Rows<T> {
    list: Vec<T>,
}

impl<T> Model for Rows<T> {
    ghost use Rattle.std.specs.Prelude.{List};
    ghost use Rattle.std.specs.Coded.{coded_list};

    ghost Value = { List T };

    ghost coded = { coded_list T.code };

    ghost view = { λ r. r.list.items };
}

impl<T> Rows<T> {
    /// These rows.
    pub fn new(list: Vec<T>) -> Rows<T>
        ensures { result ≡ list.items }
    {
        Rows { list }
    }

    /// The rows as a list that can be changed.
    pub(crate) fn into_vec(self) -> Vec<T>
        ensures { result.items ≡ self }
    {
        self.list
    }

    /// Puts the row at the end; refused, it leaves the others.
    pub(crate) fn push(&mut self, row: T) -> Result<(), AllocError>
    where
        T: Drop,
        ensures ok { OnOk result (self.new ≡ self.old ++ row ∷ []) }
        ensures err { OnErr result (self.new ≡ self.old) }
    {
        self.list.push(row)?;
        Ok(())
    }

    /// The rows in their order.
    pub fn as_slice(&self) -> &[T]
        ensures { result.now ≡ self.now }
    {
        self.list.as_slice()
    }
}

/// Puts the item at the end, in a function of its own, so that its callers let go of no value but their own.
pub(crate) fn push<T: Drop>(items: &mut Vec<T>, item: T) -> Result<(), AllocError>
    ensures { OnOk result (items.new.items ≡ items.old.items ++ item ∷ []) }
{
    items.push(item)?;
    Ok(())
}
