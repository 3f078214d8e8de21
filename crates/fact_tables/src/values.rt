ghost use Rattle.std.specs.Prelude.{◌≡◌, ◌<◌, ◌≤◌, ℕ, true, false, List, None, is_none, ◌||◌, ◌∷◌, [], ◌++◌, map, length, take, slice_set, IfOk, OnOk, OnErr};
ghost use Rattle.std.specs.List.{list_any, list_all, enumerate_from, zip};
ghost use Rattle.fact_tables.specs.declared.known.Class.{Class};
ghost use Rattle.fact_tables.specs.declared.known.Known.TheVariants.{Nothing, Number, Cell};
ghost use Rattle.fact_tables.specs.declared.uses.Use.{Use};
ghost use Rattle.fact_tables.specs.Rows.{known_at, class_at, test_at, is_of, is_on, values_without, tests_without, stale_of, stale_class};
ghost use Rattle.fact_tables.specs.Covers.{covers_value};
ghost use Rattle.fact_tables.specs.Sheets.{row_at, tests};
ghost use Rattle.fact_tables.specs.Uses.{IsUser, OnlyUsers, SayTheSame, SameUses};
ghost use Rattle.fact_tables.specs.Values.{facts_of_rows, no_values, defined, learned, is_reference, learned_row};

use crate::class_id::ClassId;
use crate::kept::KeptValues;
use crate::known::{Class, Known, Test};
use crate::refill::{make_room, refill};
use crate::row::Row;
use crate::rows;
use crate::sheet::Sheet;
use crate::uses::Use;
use ir_ast::ValueId;
use pools::LayoutId;
use std::alloc::{AllocError, Global};
use std::marker::Model;

/// What is known of values and classes.
#[derive(Drop)]
pub struct Values {
    sheet: Sheet,
    added: Vec<Class>,
    uses: Vec<Use>,
}

impl Model for Values {
    ghost use Rattle.fact_tables.specs.Values.{ValueFacts, facts_of_rows};
    ghost use Rattle.fact_tables.specs.Uses.{OnlyUsers};

    ghost Value = { ValueFacts };

    ghost view = { λ values. facts_of_rows values.sheet values.added.items };

    ghost invariant = { λ values. OnlyUsers values.uses.items values.sheet };
}

impl Clone for Values {
    ghost is_clone = { λ values copy. copy ≡ values };

    fn clone(&self) -> Result<Values, AllocError> {
        let sheet = self.sheet.clone()?;
        let added = Vec::from_slice(*self.added.allocator(), &self.added)?;
        let uses = Vec::from_slice(*self.uses.allocator(), &self.uses)?;
        Ok(Values { sheet, added, uses })
    }
}

impl Values {
    /// Nothing is known of `count` values.
    pub fn new(alloc: Global, count: usize) -> Result<Self, AllocError>
        ensures { IfOk result (λ values. values ≡ no_values count) }
    {
        let sheet = Sheet::new(alloc, count)?;
        Ok(Values {
            sheet,
            added: Vec::new(alloc),
            uses: Vec::new(alloc),
        })
    }

    /// How many values there are.
    pub fn count(&self) -> usize
        ensures { result ≡ length self.now.values }
    {
        self.sheet.len()
    }

    /// What is known of a value.
    pub fn known(&self, v: ValueId) -> Known
        ensures { result ≡ known_at self.now.values v }
    {
        self.sheet.row(v.number() as usize).known
    }

    /// The comparison that gave a value.
    pub fn test(&self, v: ValueId) -> Option<Test>
        ensures { result ≡ test_at self.now.tests v }
    {
        self.sheet.row(v.number() as usize).test
    }

    /// What is known of a class.
    pub fn class(&self, c: ClassId) -> Class
        ensures { result ≡ class_at self.now.classes c }
    {
        self.sheet.class(&self.added, c)
    }

    /// The number of the class that is added next.
    pub fn next_class(&self) -> ClassId
        ensures { result ≡ length self.now.classes }
    {
        ClassId::new(self.sheet.len() + self.added.len())
    }

    /// Each value has a class for itself.
    pub fn classes_law(&self)
        ensures { length self.now.values ≤ length self.now.classes }
    {
        let _count = self.sheet.len();
    }

    /// Nothing is known any more.
    pub fn clear(&mut self)
        ensures { self.new ≡ no_values (length self.old.values) }
    {
        self.sheet.clear();
        self.added.clear();
        self.uses.clear();
    }

    /// Nothing is known of `count` values, in the room of these.
    pub fn resize(&mut self, count: usize) -> Result<(), AllocError>
        ensures ok { OnOk result (self.new ≡ no_values count) }
        ensures err { OnErr result (self.new ≡ self.old) }
    {
        self.sheet.resize(count)?;
        self.added.clear();
        self.uses.clear();
        Ok(())
    }

    /// What is known elsewhere of as many values, in place of what is known here.
    pub fn set_from(&mut self, other: &Values) -> Result<(), AllocError>
        requires { length self.old.values ≡ length other.now.values }
        ensures ok { OnOk result (self.new ≡ other.now) }
        ensures err { OnErr result (self.new ≡ self.old) }
    {
        make_room(&mut self.added, &other.added)?;
        make_room(&mut self.uses, &other.uses)?;
        self.sheet.set_from(&other.sheet)?;
        refill(&mut self.added, &other.added);
        refill(&mut self.uses, &other.uses);
        Ok(())
    }

    /// What is known, in as much room as it fills.
    pub fn keep(&self, alloc: Global) -> Result<KeptValues, AllocError>
        ensures { IfOk result (λ kept. kept ≡ self.now) }
    {
        let sheet = self.sheet.keep(alloc)?;
        let added = Vec::from_slice(alloc, &self.added)?;
        let uses = Vec::from_slice(alloc, &self.uses)?;
        Ok(KeptValues { sheet, added, uses })
    }

    /// What was kept of as many values, in place of what is known here.
    pub fn open(&mut self, alloc: Global, kept: &KeptValues) -> Result<(), AllocError>
        requires { length self.old.values ≡ length kept.now.values }
        ensures ok { OnOk result (self.new ≡ kept.now) }
        ensures err { OnErr result (self.new ≡ self.old) }
    {
        let added = Vec::from_slice(alloc, &kept.added)?;
        let uses = Vec::from_slice(alloc, &kept.uses)?;
        self.sheet.open(alloc, &kept.sheet)?;
        self.added = added;
        self.uses = uses;
        Ok(())
    }

    /// This is known of a value besides.
    pub fn set_known(&mut self, v: ValueId, known: Known) -> Result<(), AllocError>
        ensures ok { OnOk result (self.new ≡ record self.old { values = slice_set self.old.values v known }) }
        ensures err { OnErr result (self.new ≡ self.old) }
    {
        let at = v.number() as usize;
        use_base(&mut self.sheet, &mut self.uses, at, &known)?;
        let row = self.sheet.row(at);
        self.sheet.set(at, Row { known, ..row })?;
        Ok(())
    }

    /// This is known of a value, and no more.
    pub fn define(&mut self, v: ValueId, known: Known) -> Result<(), AllocError>
        ensures ok { OnOk result (self.new ≡ defined v known None self.old) }
        ensures err { OnErr result (self.new ≡ self.old) }
    {
        use_base(&mut self.sheet, &mut self.uses, v.number() as usize, &known)?;
        define_row(&mut self.sheet, &self.uses, v, known, None)
    }

    /// A value, of which this is known, is given by this comparison, and no more is known of it.
    pub fn define_test(
        &mut self,
        v: ValueId,
        bits: u32,
        test: Option<Test>,
    ) -> Result<(), AllocError>
        ensures ok { OnOk result (self.new ≡ defined v (Number bits None) test self.old) }
        ensures err { OnErr result (self.new ≡ self.old) }
    {
        let known = Known::Number { bits, below: None };
        use_tested(&mut self.sheet, &mut self.uses, v.number() as usize, &test)?;
        define_row(&mut self.sheet, &self.uses, v, known, test)
    }

    /// A value is a reference to this layout, of a class that is added, and no more is known of it.
    pub fn define_new(
        &mut self,
        v: ValueId,
        layout: LayoutId,
        stale: bool,
        class: Class,
    ) -> Result<(), AllocError>
        ensures ok { OnOk result (self.new ≡ defined v (Cell (length self.old.classes) layout stale) None (record self.old { classes = self.old.classes ++ class ∷ [] })) }
        ensures err { OnErr result (self.new ≡ self.old) }
    {
        let known = Known::Cell {
            class: self.next_class(),
            layout,
            stale,
        };
        self.sheet.own(v)?;
        let count = self.added.len();
        self.added.push(class)?;
        let result = define_row(&mut self.sheet, &self.uses, v, known, None);
        if result.is_err() {
            self.added.truncate(count);
        }
        result
    }

    /// A value is a reference of a class, which is not null where this holds, and no more is known of it.
    pub fn define_of(
        &mut self,
        v: ValueId,
        layout: LayoutId,
        class: ClassId,
        nonnull: bool,
    ) -> Result<(), AllocError>
        ensures ok { OnOk result (self.new ≡ learned class nonnull (defined v (Cell class layout false) None self.old)) }
        ensures err { OnErr result (self.new ≡ self.old) }
    {
        if nonnull {
            self.define_nonnull(v, layout, class)
        } else {
            let stale = false;
            self.define(
                v,
                Known::Cell {
                    class,
                    layout,
                    stale,
                },
            )
        }
    }

    /// A value is a reference of a class, which is not null, and no more is known of it.
    fn define_nonnull(
        &mut self,
        v: ValueId,
        layout: LayoutId,
        class: ClassId,
    ) -> Result<(), AllocError>
        ensures ok { OnOk result (self.new ≡ learned class true (defined v (Cell class layout false) None self.old)) }
        ensures err { OnErr result (self.new ≡ self.old) }
    {
        let known = Known::Cell {
            class,
            layout,
            stale: false,
        };
        fill(&mut self.sheet, &self.uses, class.number())?;
        define_row(&mut self.sheet, &self.uses, v, known, None)?;
        learn(&mut self.sheet, &mut self.added, class);
        Ok(())
    }

    /// Each row that names a value ends, and nothing is known of the value itself.
    pub fn forget(&mut self, v: ValueId)
        ensures { self.new ≡ record self.old { values = values_without v self.old.values; tests = tests_without v self.old.tests } }
    {
        self.sheet.end_names(&self.uses, v);
        let at = v.number() as usize;
        let row = self.sheet.row(at);
        self.sheet.change(
            at,
            Row {
                known: Known::Nothing,
                test: None,
                used: None,
                aside: false,
                ..row
            },
        );
    }

    /// This is known of a class.
    pub fn set_class(&mut self, c: ClassId, class: Class) -> Result<(), AllocError>
        ensures ok { OnOk result (self.new ≡ record self.old { classes = slice_set self.old.classes c class }) }
        ensures err { OnErr result (self.new ≡ self.old) }
    {
        let at = c.number();
        let own = self.sheet.len();
        if at < own {
            let row = self.sheet.row(at);
            self.sheet.set(at, Row { class, ..row })?;
        } else {
            set_added(&mut self.added, at - own, class);
        }
        Ok(())
    }

    /// A class is fresh no more.
    pub fn drop_fresh(&mut self, c: ClassId)
        ensures { self.new ≡ record self.old { classes = slice_set self.old.classes c (record (class_at self.old.classes c) { fresh = false }) } }
    {
        let class = Class {
            fresh: false,
            ..self.class(c)
        };
        let at = c.number();
        let own = self.sheet.len();
        if at < own {
            let row = self.sheet.row(at);
            self.sheet.change(at, Row { class, ..row });
        } else {
            set_added(&mut self.added, at - own, class);
        }
    }

    /// There are no more classes than elsewhere, where there are as many values.
    pub fn drop_classes(&mut self, other: &Values)
        requires { length self.old.values ≡ length other.now.values }
        ensures { self.new ≡ record self.old { classes = take (length other.now.classes) self.old.classes } }
    {
        self.added.truncate(other.added.len());
    }

    /// Each reference is stale, and of the class that its value has for itself.
    pub fn make_stale(&mut self)
        ensures { self.new ≡ record self.old { values = map stale_of (enumerate_from 0 self.old.values); classes = map (stale_class self.old.classes) (zip self.old.classes self.old.values) } }
    {
        self.sheet.make_stale(&self.added);
        self.added.clear();
    }

    /// Whether some value is of this class.
    pub fn any_of(&self, c: ClassId) -> bool
        ensures { result ≡ list_any (is_of c) self.now.values }
    {
        self.sheet.any_of(c)
    }

    /// Whether some value is of this class once nothing is known of `v`.
    pub fn any_other(&self, v: ValueId, c: ClassId) -> bool
        ensures { result ≡ list_any (is_of c) (values_without v self.now.values) }
    {
        self.sheet.any_other(v, c)
    }

    /// Whether it is seen that nothing names a value, and that no comparison gave it.
    pub fn is_unnamed(&self, v: ValueId) -> bool
        ensures values { result ≡ true → values_without v self.now.values ≡ slice_set self.now.values v Nothing }
        ensures tests { result ≡ true → tests_without v self.now.tests ≡ self.now.tests }
    {
        let at = v.number() as usize;
        let row = self.sheet.row(at);
        at < self.sheet.len() && row.used.is_none() && row.test.is_none()
    }

    /// Whether all values of a class here are listed there as of another.
    pub fn covers(&self, there: &Values, c: ClassId, d: ClassId) -> bool
        ensures { result ≡ list_all (covers_value c d) (zip self.now.values there.now.values) }
    {
        self.sheet.covers(&there.sheet, c, d)
    }
}

/// This is known of a value, which this comparison gave, and no more.
fn define_row(
    sheet: &mut Sheet,
    uses: &[Use],
    v: ValueId,
    known: Known,
    test: Option<Test>,
) -> Result<(), AllocError>
    requires only { OnlyUsers uses.now sheet.old }
    requires recorded { (w : ℕ) → (is_on w known || tests w test) ≡ true → w < length sheet.old → IsUser uses.now sheet.old v w }
    ensures ok { OnOk result ((added : List Class) → facts_of_rows sheet.new added ≡ defined v known test (facts_of_rows sheet.old added)) }
    ensures err { OnErr result (sheet.new ≡ sheet.old) }
    ensures users { OnlyUsers uses.now sheet.new }
    ensures used { SameUses sheet.old sheet.new }
{
    let row = sheet.row(v.number() as usize);
    sheet.define(
        uses,
        v,
        Row {
            known,
            test,
            aside: false,
            ..row
        },
    )
}

/// A row is one that something uses: so it is filled.
fn fill(sheet: &mut Sheet, uses: &[Use], at: usize) -> Result<(), AllocError>
    ensures same { SayTheSame sheet.old sheet.new }
    ensures users { OnlyUsers uses.now sheet.old → OnlyUsers uses.now sheet.new }
    ensures filled { OnOk result (at < length sheet.new → is_none (row_at sheet.new at).used ≡ false) }
{
    let row = sheet.row(at);
    let newest = uses.len();
    if row.used.is_none() {
        sheet.set(
            at,
            Row {
                used: Some(newest),
                ..row
            },
        )?;
    }
    Ok(())
}

/// A class is not null; the row that it has, if it is that of a value, is filled.
fn learn(sheet: &mut Sheet, added: &mut Vec<Class>, c: ClassId)
    requires { c < length sheet.old → is_none (row_at sheet.old c).used ≡ false }
    ensures facts { facts_of_rows sheet.new added.new.items ≡ learned c true (facts_of_rows sheet.old added.old.items) }
    ensures users { (uses : List Use) → OnlyUsers uses sheet.old → OnlyUsers uses sheet.new }
{
    let at = c.number();
    let own = sheet.len();
    let class = Class {
        nonnull: true,
        ..sheet.class(added, c)
    };
    if at < own {
        sheet.change(at, learned_row(class, sheet.row(at)));
    } else {
        set_added(added, at - own, class);
    }
}

/// A row of whose class this is known, which is not null; a safepoint changes the row only where it did.
fn learned_row(class: Class, row: Row) -> Row
    ensures { result ≡ learned_row class row }
{
    let aside = row.aside || is_reference(&row.known);
    Row {
        class,
        aside,
        ..row
    }
}

fn is_reference(known: &Known) -> bool
    ensures { result ≡ is_reference known.now }
{
    matches!(known, Known::Cell { .. })
}

/// A row uses the base of an address.
fn use_base(
    sheet: &mut Sheet,
    uses: &mut Vec<Use>,
    user: usize,
    known: &Known,
) -> Result<(), AllocError>
    ensures long { length sheet.new ≡ length sheet.old }
    ensures same { SayTheSame sheet.old sheet.new }
    ensures users { OnlyUsers uses.old.items sheet.old → OnlyUsers uses.new.items sheet.new }
    ensures recorded { OnOk result ((w : ℕ) → is_on w known.now ≡ true → w < length sheet.new → IsUser uses.new.items sheet.new user w) }
{
    match known {
        Known::Address { base, .. } => use_value(sheet, uses, user, *base),
        _ => Ok(()),
    }
}

/// A row uses the value that is compared.
fn use_tested(
    sheet: &mut Sheet,
    uses: &mut Vec<Use>,
    user: usize,
    test: &Option<Test>,
) -> Result<(), AllocError>
    ensures long { length sheet.new ≡ length sheet.old }
    ensures same { SayTheSame sheet.old sheet.new }
    ensures users { OnlyUsers uses.old.items sheet.old → OnlyUsers uses.new.items sheet.new }
    ensures recorded { OnOk result ((w : ℕ) → tests w test.now ≡ true → w < length sheet.new → IsUser uses.new.items sheet.new user w) }
{
    match test {
        Some(test) => use_value(sheet, uses, user, test.tested),
        None => Ok(()),
    }
}

fn use_value(
    sheet: &mut Sheet,
    uses: &mut Vec<Use>,
    user: usize,
    v: ValueId,
) -> Result<(), AllocError>
    ensures long { length sheet.new ≡ length sheet.old }
    ensures same { SayTheSame sheet.old sheet.new }
    ensures users { OnlyUsers uses.old.items sheet.old → OnlyUsers uses.new.items sheet.new }
    ensures recorded { OnOk result (v < length sheet.new → IsUser uses.new.items sheet.new user v) }
{
    let at = v.number() as usize;
    let row = sheet.row(at);
    let newest = uses.len();
    uses.push(Use {
        user,
        before: row.used,
    })?;
    sheet.set(
        at,
        Row {
            used: Some(newest),
            ..row
        },
    )?;
    Ok(())
}

fn set_added(added: &mut Vec<Class>, at: usize, class: Class)
    ensures { added.new.items ≡ slice_set added.old.items at class }
{
    if at < added.len() {
        added[at] = class;
    }
}
