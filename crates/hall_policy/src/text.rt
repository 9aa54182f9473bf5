//! Checked texts: names, labels, round ids, tokens, keys, titles and longer texts, each within its limits.
ghost use Rattle.std.specs.Prelude.{◌≡◌, ◌↔◌, ℕ, List, Bool, IsTrue, IfSome, IfNone, ◌<◌, ◌≤◌};
ghost use Rattle.std.specs.String.{string_bytes};
ghost use Rattle.hall_grid.specs.Printable.{is_printable};
ghost use Rattle.hall_policy.specs.Text.{IsOfKind, is_word_byte, is_key_byte};

use std::alloc::AllocError;
use std::cmp::Ordering;
use std::marker::{Model, PhantomData};

/// Which texts a kind of checked text takes: how many bytes, and which ones.
pub trait TextKind {
    ghost allows: { ℕ → Bool };

    ghost LEAST: { ℕ };

    ghost MOST: { ℕ };

    /// The fewest bytes.
    const LEAST: usize;

    /// The most bytes.
    const MOST: usize;

    /// Whether the byte may stand in a text of the kind.
    fn allows(byte: u8) -> bool
        ensures { result ≡ allows byte };
}

/// A text of one kind; a contract sees the list of its bytes.
#[derive(Drop)]
pub struct Checked<K: TextKind> {
    text: String,
    kind: PhantomData<K>,
}

impl<K: TextKind> Model for Checked<K> {
    ghost use Rattle.std.specs.Prelude.{List, ℕ};
    ghost use Rattle.std.specs.String.{string_bytes};
    ghost use Rattle.hall_policy.specs.Text.{IsOfKind};

    ghost Value = { List ℕ };

    ghost view = { λ t. string_bytes t.text };

    ghost invariant = { λ t. IsOfKind K.LEAST K.MOST K.allows (string_bytes t.text) };
}

impl<K: TextKind> Checked<K> {
    /// The text, where it is of the kind.
    pub fn new(text: String) -> Option<Checked<K>>
        ensures some { IfSome result (λ made. (made ≡ string_bytes text) × IsOfKind K.LEAST K.MOST K.allows made) }
        ensures none { IfNone result (¬ (IsOfKind K.LEAST K.MOST K.allows (string_bytes text))) }
    {
        if text.len() < K::LEAST || text.len() > K::MOST {
            return None;
        }
        if !text.as_bytes().iter().all(|byte| K::allows(*byte)) {
            return None;
        }
        Some(Checked {
            text,
            kind: PhantomData,
        })
    }

    /// The text.
    pub fn as_str(&self) -> &str
        ensures text { result.now ≡ self.now }
        ensures of_kind { IsOfKind K.LEAST K.MOST K.allows self.now }
    {
        self.text.as_str()
    }

    /// Whether both are the same text.
    pub fn is_same(&self, other: &Self) -> bool
        ensures { IsTrue result ↔ (self.now ≡ other.now) }
    {
        self.as_str() == other.as_str()
    }
}

impl<K: TextKind> Clone for Checked<K> {
    ghost use Rattle.std.specs.Prelude.{◌≡◌};

    ghost is_clone = { λ x y. y ≡ x };

    fn clone(&self) -> Result<Checked<K>, AllocError> {
        Ok(Checked {
            text: self.text.clone()?,
            kind: PhantomData,
        })
    }
}

impl<K: TextKind> PartialEq for Checked<K> {
    ghost use Rattle.std.specs.Prelude.{nat_eq};
    ghost use Rattle.std.specs.Cmp.{partial_equiv_from_equiv};
    ghost use Rattle.std.specs.Cmp.Lexicographic.{pointwise, nat_list_eq_equiv};

    ghost eq = { pointwise nat_eq };

    ghost laws = { partial_equiv_from_equiv nat_list_eq_equiv };

    fn eq(&self, other: &Self) -> bool {
        self.is_same(other)
    }
}

impl<K: TextKind> Eq for Checked<K> {
    ghost use Rattle.std.specs.Cmp.Lexicographic.{nat_list_eq_equiv};

    ghost laws = { nat_list_eq_equiv };
}

impl<K: TextKind> PartialOrd for Checked<K> {
    ghost use Rattle.std.specs.Prelude.{Some};
    ghost use Rattle.std.specs.Cmp.Lexicographic.{slice_cmp, texts_po};
    ghost use Rattle.std.specs.Ordering.{nat_cmp};

    ghost partial_cmp = { λ x y. Some (slice_cmp nat_cmp x y) };

    ghost laws = { texts_po };

    fn partial_cmp(&self, other: &Self) -> Option<Ordering> {
        Some(self.cmp(other))
    }
}

impl<K: TextKind> Ord for Checked<K> {
    ghost use Rattle.std.specs.Prelude.{refl};
    ghost use Rattle.std.specs.Cmp.Lexicographic.{slice_cmp, nat_list_cmp_total, texts_ties};
    ghost use Rattle.std.specs.Ordering.{nat_cmp};

    ghost cmp = { slice_cmp nat_cmp };

    ghost total = { nat_list_cmp_total };

    ghost matches_partial_cmp = { λ x y. refl };

    ghost matches_eq = { texts_ties };

    fn cmp(&self, other: &Self) -> Ordering {
        self.as_str().cmp(other.as_str())
    }
}

/// Which bytes may stand in a text.
pub trait Alphabet {
    ghost allows: { ℕ → Bool };

    /// Whether the byte may stand in a text.
    fn allows(byte: u8) -> bool
        ensures { result ≡ allows byte };
}

/// `a` to `z`, `0` to `9` and the dash.
pub struct Word {}

impl Alphabet for Word {
    ghost use Rattle.hall_policy.specs.Text.{is_word_byte};

    ghost allows = { is_word_byte };

    fn allows(byte: u8) -> bool {
        byte.is_ascii_lowercase() || byte.is_ascii_digit() || byte == b'-'
    }
}

/// Letters, digits and the dash.
pub struct Letters {}

impl Alphabet for Letters {
    ghost use Rattle.hall_policy.specs.Text.{is_key_byte};

    ghost allows = { is_key_byte };

    fn allows(byte: u8) -> bool {
        byte.is_ascii_uppercase() || Word::allows(byte)
    }
}

/// Printable ASCII.
pub struct Printable {}

impl Alphabet for Printable {
    ghost use Rattle.hall_grid.specs.Printable.{is_printable};

    ghost allows = { is_printable };

    fn allows(byte: u8) -> bool {
        32 <= byte && byte <= 126
    }
}

/// The texts of LEAST to MOST bytes of an alphabet. Its tag tells a kind from another one with the same limits.
pub struct TextOf<T, A: Alphabet, const LEAST: usize, const MOST: usize> {
    tag: PhantomData<T>,
    alphabet: PhantomData<A>,
}

impl<T, A: Alphabet, const LEAST: usize, const MOST: usize> TextKind for TextOf<T, A, LEAST, MOST> {
    ghost allows = { A.allows };

    ghost LEAST = { LEAST };

    ghost MOST = { MOST };

    const LEAST: usize = LEAST;

    const MOST: usize = MOST;

    fn allows(byte: u8) -> bool {
        A::allows(byte)
    }
}

/// The tag of a [`Name`].
pub struct NameTag {}

/// The tag of a [`Label`].
pub struct LabelTag {}

/// The tag of a [`RoundId`].
pub struct RoundTag {}

/// The tag of a [`Token`].
pub struct TokenTag {}

/// The tag of a [`Key`].
pub struct KeyTag {}

/// The tag of a [`Title`].
pub struct TitleTag {}

/// The tag of a [`ProtestText`].
pub struct ProtestTag {}

/// The tag of an [`AnswerText`].
pub struct AnswerTag {}

/// The tag of a [`PuzzleText`].
pub struct PuzzleTag {}

/// A person's name: 1 to 24 of `a` to `z`, `0` to `9` and `-`.
pub type Name = Checked<TextOf<NameTag, Word, 1, 24>>;

/// The label that an author gives to a puzzle: 1 to 24 of `a` to `z`, `0` to `9` and `-`.
pub type Label = Checked<TextOf<LabelTag, Word, 1, 24>>;

/// A round's id: 1 to 24 of `a` to `z`, `0` to `9` and `-`.
pub type RoundId = Checked<TextOf<RoundTag, Word, 1, 24>>;

/// What tells a repeated request from a new one: 1 to 32 of `a` to `z`, `0` to `9` and `-`.
pub type Token = Checked<TextOf<TokenTag, Word, 1, 32>>;

/// The secret by which a caller is known: 8 to 64 letters, digits and `-`.
pub type Key = Checked<TextOf<KeyTag, Letters, 8, 64>>;

/// A round's title: 1 to 60 printable bytes.
pub type Title = Checked<TextOf<TitleTag, Printable, 1, 60>>;

/// What an entrant protests: 1 to 200 printable bytes.
pub type ProtestText = Checked<TextOf<ProtestTag, Printable, 1, 200>>;

/// What an entrant hands in: 0 to 4,000 printable bytes.
pub type AnswerText = Checked<TextOf<AnswerTag, Printable, 0, 4000>>;

/// The text of a puzzle: 1 to 8,000 printable bytes.
pub type PuzzleText = Checked<TextOf<PuzzleTag, Printable, 1, 8000>>;
