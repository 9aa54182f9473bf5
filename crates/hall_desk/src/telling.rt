//! JSON that is told: token after token, as bytes at once.
ghost use Rattle.std.specs.Prelude.{◌≡◌, ◌∷◌, [], IfOk, OnOk, decimal, string_bytes};
ghost use Rattle.json.specs.Token.{begin_object, end_object, begin_array, end_array, key, string, number, boolean};
ghost use Rattle.json.specs.Print.{print};
ghost use Rattle.std.specs.Str.{IsUtf8};
ghost use Rattle.serde_json.specs.Find.{of_integer};
ghost use Rattle.json.specs.Tree.{members_tokens};
ghost use Rattle.serde_json.specs.Written.{members_outline, number_text};
ghost use Rattle.hall_desk.specs.ListedAnswers.{verdict_member};
ghost use Rattle.hall_desk.specs.Telling.{AddsTokens};

use hall_grid::Broken;
use hall_policy::{Checked, TextKind, Within};
use json::Writer;
use std::alloc::{AllocError, Global};
use std::marker::Model;

/// JSON that is being told; a contract sees its tokens.
#[derive(Drop)]
pub struct Telling {
    out: Writer,
}

impl Model for Telling {
    ghost use Rattle.std.specs.Prelude.{◌≡◌, List, []};
    ghost use Rattle.json.specs.Token.{Token, tokens_code};

    ghost Value = { List Token };

    ghost coded = { tokens_code };

    ghost view = { λ t. t.out.tokens };

    ghost invariant = { λ t. t.out.before ≡ [] };
}

impl Telling {
    /// Nothing yet, with room for so many bytes.
    pub fn new(alloc: Global, room: usize) -> Result<Telling, AllocError>
        ensures { IfOk result (λ told. told ≡ []) }
    {
        let bytes = Vec::with_capacity(alloc, room)?;
        Ok(Telling {
            out: Writer::new(bytes),
        })
    }

    /// The bytes of its text.
    pub fn into_bytes(self) -> Vec<u8>
        ensures bytes { result.items ≡ print self }
        ensures utf8 { IsUtf8 (print self) }
    {
        self.out.into_inner()
    }

    /// Its text.
    pub fn into_text(self) -> String
        ensures { string_bytes result ≡ print self }
    {
        match String::from_utf8(self.into_bytes()) {
            Ok(text) => text,
            Err(_) => unreachable!(),
        }
    }

    /// Begins an object.
    pub fn open(&mut self) -> Result<(), AllocError>
        ensures { OnOk result (AddsTokens self.old self.new (begin_object ∷ [])) }
    {
        self.out.begin_object()
    }

    /// Ends an object.
    pub fn close(&mut self) -> Result<(), AllocError>
        ensures { OnOk result (AddsTokens self.old self.new (end_object ∷ [])) }
    {
        self.out.end_object()
    }

    /// Begins a list.
    pub fn open_list(&mut self) -> Result<(), AllocError>
        ensures { OnOk result (AddsTokens self.old self.new (begin_array ∷ [])) }
    {
        self.out.begin_array()
    }

    /// Ends a list.
    pub fn close_list(&mut self) -> Result<(), AllocError>
        ensures { OnOk result (AddsTokens self.old self.new (end_array ∷ [])) }
    {
        self.out.end_array()
    }

    /// The name of a member whose value comes next.
    pub fn name(&mut self, name: &str) -> Result<(), AllocError>
        ensures { OnOk result (AddsTokens self.old self.new (key name.now ∷ [])) }
    {
        self.out.key(name)
    }

    /// A text of a list.
    pub fn text(&mut self, text: &str) -> Result<(), AllocError>
        ensures { OnOk result (AddsTokens self.old self.new (string text.now ∷ [])) }
    {
        self.out.string(text)
    }

    /// A member that is a text.
    pub fn text_at(&mut self, name: &str, text: &str) -> Result<(), AllocError>
        ensures { OnOk result (AddsTokens self.old self.new (key name.now ∷ string text.now ∷ [])) }
    {
        self.out.key(name)?;
        self.out.string(text)
    }

    /// A member that is a text of a kind.
    pub fn checked_at<K: TextKind>(
        &mut self,
        name: &str,
        text: &Checked<K>,
    ) -> Result<(), AllocError>
        ensures { OnOk result (AddsTokens self.old self.new (key name.now ∷ string text.now ∷ [])) }
    {
        self.text_at(name, text.as_str())
    }

    /// A member that is a number.
    pub fn number_at(&mut self, name: &str, n: u64) -> Result<(), AllocError>
        ensures { OnOk result (AddsTokens self.old self.new (key name.now ∷ number (decimal n) ∷ [])) }
    {
        self.out.key(name)?;
        self.out.u64(n)
    }

    /// A member that is a number in its range.
    pub fn within_at<const LEAST: u64, const MOST: u64>(
        &mut self,
        name: &str,
        n: Within<LEAST, MOST>,
    ) -> Result<(), AllocError>
        ensures { OnOk result (AddsTokens self.old self.new (key name.now ∷ number (decimal n.entry) ∷ [])) }
    {
        self.number_at(name, n.get())
    }

    /// A member that is a whole number.
    pub fn integer_at(&mut self, name: &str, n: i64) -> Result<(), AllocError>
        ensures { OnOk result
            (AddsTokens self.old self.new (key name.now ∷ number (number_text (of_integer n)) ∷ [])) }
    {
        self.out.key(name)?;
        self.out.i64(n)
    }

    /// Ends an object by its verdict, where one is told.
    pub fn end_with_verdict(
        &mut self,
        alloc: Global,
        verdict: Option<Broken>,
    ) -> Result<(), AllocError>
        ensures { OnOk result
            (AddsTokens self.old self.new (members_tokens (members_outline (verdict_member verdict)))) }
    {
        match verdict {
            None => self.close(),
            Some(names) => {
                let verdict = format!(in alloc; "{names}")?;
                self.text_at("verdict", verdict.as_str())?;
                self.close()
            }
        }
    }

    /// A member that is true or false.
    pub fn flag_at(&mut self, name: &str, flag: bool) -> Result<(), AllocError>
        ensures { OnOk result (AddsTokens self.old self.new (key name.now ∷ boolean flag ∷ [])) }
    {
        self.out.key(name)?;
        self.out.boolean(flag)
    }
}
