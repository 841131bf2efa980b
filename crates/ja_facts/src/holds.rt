ghost use Rattle.std.specs.Prelude.{◌≡◌, ◌+◌, ◌<◌, Some, length, slice_get, IfOk};
ghost use Rattle.std.specs.Borrow.{sem};
ghost use Rattle.ja_facts.specs.FactTables.{empty_held};

use crate::build::{set_row, token_count};
use crate::rows::Rows;
use ja_base::{FieldId, Memory};
use ja_ir::{Program, Token};
use ja_sets::TokenSet;
use std::alloc::Global;
use std::marker::Model;

/// Which fields and bags an object of a token, or what a field refers to, may reach.
///
/// A field has its number, and the bags of a token the number of all fields and then its own.
#[derive(Drop)]
pub struct Holds {
    tokens: Rows<TokenSet>,
    fields: Rows<TokenSet>,
}

impl Model for Holds {
    ghost use Rattle.ja_facts.specs.FactTables.{HeldTable};

    ghost Value = { HeldTable };

    ghost view = { λ holds. record { tokens = holds.tokens; fields = holds.fields } };
}

impl Holds {
    ghost use Rattle.ja_facts.specs.FactLending.{LendsOfToken, LendsOfField};

    /// The cells that are held in a program: none.
    pub fn new(alloc: Global, p: &Program) -> Result<Holds, Memory>
        ensures { IfOk result (λ holds. holds ≡ empty_held p.now) }
    {
        let count = token_count(p);
        let cells = p.fields().len() as u32 + count;
        let tokens = set_row(alloc, count as u64, cells)?;
        let fields = set_row(alloc, p.fields().len(), cells)?;
        Ok(Holds { tokens, fields })
    }

    /// The cells that an object of a token may reach.
    pub fn of_token(&self, t: Token) -> &TokenSet
        requires { t.0 < length self.now.tokens }
        ensures { slice_get self.now.tokens t.0 ≡ Some result.now }
    {
        self.tokens.at(t.0 as u64)
    }

    /// The cells that an object of a token may reach, for writing.
    pub fn of_token_mut(&mut self, t: Token) -> &mut TokenSet
        requires { t.0 < length self.old.tokens }
        ensures* writes_back { sem 𝓛 (LendsOfToken self.entry t.0 result) }
        ensures value { slice_get self.old.tokens t.0 ≡ Some result.now }
    {
        self.tokens.at_mut(t.0 as u64)
    }

    /// The cells that what a field refers to may reach.
    pub fn of_field(&self, f: FieldId) -> &TokenSet
        requires { f.0 < length self.now.fields }
        ensures { slice_get self.now.fields f.0 ≡ Some result.now }
    {
        self.fields.at(f.0 as u64)
    }

    /// The cells that what a field refers to may reach, for writing.
    pub fn of_field_mut(&mut self, f: FieldId) -> &mut TokenSet
        requires { f.0 < length self.old.fields }
        ensures* writes_back { sem 𝓛 (LendsOfField self.entry f.0 result) }
        ensures value { slice_get self.old.fields f.0 ≡ Some result.now }
    {
        self.fields.at_mut(f.0 as u64)
    }
}
