//! What a reader of modules reads from, and the steps that every form is made of.
ghost use Rattle.std.specs.Prelude.{◌≡◌, ◌<◌, ◌^◌, Ok};
ghost use Rattle.ir_forms.specs.Cursor as place;
ghost use Rattle.ir_forms.specs.Input.{left, start_of, Reads};
ghost use Rattle.ir_forms.specs.Input as form;

use crate::cursor::Cursor;
use crate::fault::Fault;
use crate::table::Table;
use crate::uses::{LocalUse, StructUse, SymbolUse};
use ir_ast as ast;
use ir_ast::{Declare, Function, HashKey, LocalSort, StructType, SymbolSort, Types};
use ir_tokens::Kind;
use items::Items;
use pools::LayoutId;
use std::alloc::Global;

/// The tokens that are left, and what the tokens before them gave.
#[derive(Drop)]
pub struct Input<'a> {
    pub cursor: Cursor<'a>,
    /// The types that the text wrote so far.
    pub types: Types,
    /// The names of structs, and which struct each of them is.
    pub struct_names: Table<Option<LayoutId>>,
    pub struct_uses: Items<StructUse>,
    /// The global names.
    pub symbols: Table<SymbolSort>,
    pub symbol_uses: Items<SymbolUse>,
    /// The local names of the function that is being read.
    pub locals: Table<LocalSort>,
    pub local_uses: Items<LocalUse>,
    /// How many values this function defined so far.
    pub values: usize,
    /// How many values and blocks of this function have numbers in place of names so far.
    pub unnamed: u32,
    /// The first use of a local name that its function does not define as a value, in the functions before this one.
    pub missing: Option<u32>,
    pub structs: Items<StructType>,
    pub globals: Items<ast::Global>,
    pub declares: Items<Declare>,
    pub functions: Items<Function>,
    /// Whether the wide forms may stand in the text.
    pub wide: bool,
    /// The first form that compiled code needs and the module does not have, as a fault at it.
    pub lost: Option<Fault>,
}

impl<'a> Input<'a> {
    /// Before the first token. The tables hash by this key.
    pub fn new(alloc: Global, cursor: Cursor<'a>, key: HashKey) -> Input<'a>
        ensures { result ≡ start_of cursor.entry }
    {
        Input {
            cursor,
            types: Types::new(alloc, key),
            struct_names: Table::new(alloc, key),
            struct_uses: Items::new(alloc),
            symbols: Table::new(alloc, key),
            symbol_uses: Items::new(alloc),
            locals: Table::new(alloc, key),
            local_uses: Items::new(alloc),
            values: 0,
            unnamed: 0,
            missing: None,
            structs: Items::new(alloc),
            globals: Items::new(alloc),
            declares: Items::new(alloc),
            functions: Items::new(alloc),
            wide: false,
            lost: None,
        }
    }

    /// How many tokens are left.
    #[tactic(auto, unfolding(crate::specs::Input::left))]
    pub fn left(&self) -> usize
        ensures count { result ≡ left self.now }
        ensures within { result < 2 ^ 63 }
    {
        self.cursor.left()
    }

    /// What the next token is.
    pub fn kind(&self) -> Kind
        ensures { result ≡ place.kind self.now.cursor }
    {
        self.cursor.kind()
    }

    pub fn sees(&self, kind: Kind) -> bool
        ensures { result ≡ place.sees kind self.now.cursor }
    {
        self.cursor.sees(kind)
    }

    /// The fault of the next token where no form goes on with it, or where one would that is not read yet.
    pub fn refuse(&self, unread: bool) -> Fault
        ensures { result ≡ place.refused unread self.now.cursor }
    {
        self.cursor.refuse(unread)
    }

    /// The fault of the next token where it begins a form that is left out.
    pub fn left_out(&self) -> Fault
        ensures { result ≡ place.left_out self.now.cursor }
    {
        self.cursor.left_out()
    }

    /// The fault of the next token where it passes a limit.
    pub fn limit(&self) -> Fault
        ensures { result ≡ form.limit self.now }
    {
        Fault::Limit(self.cursor.start())
    }

    /// Goes on to the next token.
    pub fn skip(&mut self)
        ensures { form.skip.read self.old ≡ Ok (tt, self.new) }
    {
        self.cursor.skip();
    }

    /// Goes on after a token of this kind.
    pub fn expect(&mut self, kind: Kind) -> Result<(), Fault>
        ensures { Reads ((form.expect kind).read self.old) result self.new }
    {
        if !self.sees(kind) {
            return Err(self.refuse(false));
        }
        self.skip();
        Ok(())
    }
}
