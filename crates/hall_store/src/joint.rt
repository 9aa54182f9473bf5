//! Answers that are stored together.
ghost use Rattle.std.specs.Prelude.{◌≡◌, ◌++◌, ◌∷◌, [], OnOk, OnErr};

use hall_policy::AnswerRow;
use std::alloc::{AllocError, Global};
use std::marker::Model;

/// The most answers that are stored together. So many share the two syncs of one write that more would hardly spare
/// time, and who sends meanwhile waits for no more than these.
pub const MOST_TOGETHER: usize = 64;

/// Answers that are to be stored together, at most `MOST_TOGETHER`.
#[derive(Drop)]
pub struct JointAnswers {
    rows: Vec<AnswerRow>,
}

impl Model for JointAnswers {
    ghost use Rattle.std.specs.Prelude.{◌≤◌, List, length};
    ghost use Rattle.hall_policy.specs.declared.record.AnswerRow.{AnswerRow};
    ghost use Rattle.hall_store.specs.Joint.{most_together};

    ghost Value = { List AnswerRow };

    ghost view = { λ j. j.rows.items };

    ghost invariant = { λ j. length j.rows.items ≤ most_together };
}

impl JointAnswers {
    /// None yet.
    pub fn new(alloc: Global) -> JointAnswers
        ensures { result ≡ [] }
    {
        JointAnswers {
            rows: Vec::new(alloc),
        }
    }

    /// The answers in their order.
    pub fn as_slice(&self) -> &[AnswerRow]
        ensures { result.now ≡ self.now }
    {
        self.rows.as_slice()
    }

    /// Puts one more at the end. Refused, it leaves them: there are as many as there may be, or it is out of memory.
    pub fn push(&mut self, row: AnswerRow) -> Result<(), AllocError>
        ensures ok { OnOk result (self.new ≡ self.old ++ row ∷ []) }
        ensures err { OnErr result (self.new ≡ self.old) }
    {
        if self.rows.len() >= MOST_TOGETHER {
            return Err(AllocError);
        }
        self.rows.push(row)?;
        Ok(())
    }
}
