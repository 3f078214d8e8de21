//! What is wrong, what is seen elsewhere, and what mends it, each as a case without words.
use block_rules::{Detail, Rule};
use certs::Fact;
use ir_ast::{BlockId, Operand, Runtime, TypeId, ValueId};
use pools::LayoutId;

/// Why nothing is known of a value.
#[derive(Clone, Copy)]
pub enum Cause {
    /// A parameter of which the certificate does not say to what it refers.
    Parameter,
    /// The result of a call of which the certificate of the callee does not say that.
    Result,
    /// It is defined after the instruction, or nowhere on a way to it.
    NotYet,
    /// It is defined here from what is not known, or from null.
    FromNothing,
    /// It is defined on one way to the instruction, and not on another.
    OneWay(BlockId),
    /// A block on the way does not list it.
    Unlisted,
    /// A block on the way does not list it, and it would be stale.
    Stale,
}

/// Which operand has another type than the one that is written.
#[derive(Clone, Copy)]
pub enum Mistyped {
    /// The number of a layout.
    Layout,
    /// The place of a load or a store.
    Place,
    /// What is outside of the module, where no function outside is called.
    Outside,
    /// An address where a value is wanted.
    Address,
    /// A slot where a value is wanted.
    Slot,
    /// The value that llvm.gcwrite stores.
    Stored,
    /// The only operand.
    Only,
    /// The only argument of a call.
    Argument,
    /// A slot, under a written type that is not its own.
    SlotType,
    /// A slot that llvm.gcroot does not get as `i8**`.
    Rooted,
    /// The object of llvm.gcwrite, which is no reference.
    Object,
    /// An address that comes in for a phi.
    Entry,
    /// A reference that is compared by another condition than eq and ne.
    Ordered,
    /// A reference that is handed to a function outside.
    Handed,
    Other,
}

/// Why an index leads outside that is known to be below the length of its array.
#[derive(Clone, Copy)]
pub enum Beyond {
    /// As a number with a sign it may be negative.
    Signed,
    /// Some elements of the array are outside the words of the cell.
    Words,
}

/// What is missing of a claim.
#[derive(Clone, Copy)]
pub enum Missing {
    /// Nothing is known of the value.
    All,
    /// Nothing is known of the value, since this block defines it, and the edge is reached without that.
    OneWay(BlockId),
    /// The phi that gives the value has no entry for the block.
    Entry,
    Stale,
    /// Null comes in.
    Null,
    Nonnull,
    Fresh,
    /// It is fresh, and this slot holds it too, of which the block does not list that.
    InSlot(ValueId),
    /// It is fresh, and the block lists this value too, which is the same, without saying that.
    Twin(ValueId),
    /// It is fresh, and this phi of the block takes it in too.
    InPhi(ValueId),
    Layout,
    Below,
    /// What a slot holds may be null.
    SlotNonnull,
    /// A slot is not known to hold that.
    Holds,
    Other,
}

/// Which word of a promise is not kept.
#[derive(Clone, Copy)]
pub enum Unkept {
    /// It is null.
    Null,
    Nonnull,
    Below,
    Layout,
    /// It is an address outside of the module, which is not promised to be a number.
    Outside,
    /// It is none, and is promised to be a number.
    Inside,
    /// None of these.
    Other,
}

/// What is wrong with the entries of a phi.
#[derive(Clone, Copy)]
pub enum Entries {
    Missing(BlockId),
    Extra(BlockId),
    /// Two of one block, or another fault.
    Other,
}

/// What a slot holds that is no root.
#[derive(Clone, Copy)]
pub enum Held {
    Reference,
    /// A reference to cells of a layout that the type does not say.
    AnyReference,
    Address,
}

/// Where a reference is stored without a barrier.
#[derive(Clone, Copy)]
pub enum Target {
    Global,
    /// A word of the cell of a reference.
    Cell,
    Other,
}

/// Why a function outside may not be called.
#[derive(Clone, Copy)]
pub enum Outside {
    /// The wide forms may not stand in the text.
    OnlyDeclared,
    /// The certificate does not trust it.
    Untrusted,
    /// It is called with another number of arguments.
    OtherCount,
}

/// What is wrong.
#[derive(Clone, Copy)]
pub enum Case {
    Unknown(Cause),
    Mistyped(Mistyped),
    Stale,
    /// A place in the cell of what may be null.
    NullablePlace,
    /// A base of a place that may be null.
    NullableBase,
    Beyond(Beyond),
    /// An index that is not known to be small enough.
    Loose,
    /// An offset in bytes to no word that is known.
    Bytes,
    /// A constant index outside the words of a cell.
    OutsideCell,
    /// The layout of a reference, and that of the struct that is written.
    OtherStruct { found: LayoutId, written: LayoutId },
    Unbarred(Target),
    /// The object of a barrier is not that of the place, which is in the cell of another one.
    OtherObject,
    /// The object of a barrier is not that of the place, which is in no cell.
    NoObject,
    Unrooted(Held),
    Argument(Unkept),
    Result(Unkept),
    /// A claim that an edge does not imply.
    Edge(Missing, Detail),
    Entries(Entries),
    Outside(Outside),
    /// What a rule says where nothing more depends on its instruction.
    Rule(Rule),
}

/// What is seen at another place.
#[derive(Clone, Copy)]
pub enum Seen {
    /// A call that may reach a safepoint.
    Lost,
    /// A caller passes what is stale.
    Passed,
    /// What is stale is returned.
    Returned,
    Defined,
    /// It is defined in a block through which not each way leads.
    DefinedIn,
    /// It is defined, and not compared with null.
    Uncompared,
    /// It is the base of a place from there on.
    Base,
    /// It is used, which LLVM's verifier refuses too.
    Used,
    /// It is the result of a call.
    CallResult,
    /// It comes in for a phi.
    ComesIn,
    /// The base lost `fresh`.
    Unfresh,
    /// What a slot holds lost `fresh`, from which the base is loaded.
    UnfreshInSlot,
    /// Another name of the base lost `fresh`.
    UnfreshTwin,
    /// A line of the certificate promises it.
    Promise,
    /// The mark of a function.
    Mark,
    /// The certificate of a function.
    Section,
    /// What a block lists.
    Listed,
    /// The claim of which this is missing.
    Claim(Missing),
}

/// A load from a slot.
#[derive(Clone, Copy)]
pub struct Loaded {
    pub value: ValueId,
    pub loaded: TypeId,
    pub place_type: TypeId,
}

/// What mends it.
#[derive(Clone, Copy)]
pub enum Mending {
    /// What the case says, with a further way if it has one.
    OfCase,
    /// It is loaded again from its root slot.
    LoadFromRoot,
    /// It is held in a new root slot.
    Hold,
    /// The lines of a new root slot for a reference to this layout.
    NewRoot(ValueId, Option<LayoutId>),
    /// It is loaded again after the last safepoint.
    LoadAfterSafepoint,
    /// It is loaded again where it is used.
    LoadAgain(Loaded),
    PhiOnWays,
    OtherValue,
    /// The claim goes, since nothing uses the value.
    UnusedClaim,
    /// The claim goes, where the target does not use it.
    StaleClaim,
    CompareWithNull,
    ListSlotHere,
    ListSlotThere,
    ListNonnull,
    PromiseNonnull,
    /// A comparison of an index of so many bits.
    CompareIndex(u32),
    ListBelow,
    PromiseBelow,
    /// The numbers that an allocation takes.
    Numbers,
    /// The numbers that an allocation may write, in place of one that is none.
    OtherNumber,
    /// A slot is written under its own type.
    SlotType(Operand),
    /// The lines that make a slot a root, in place of a call.
    Root(ValueId),
    /// The lines that make a slot a root, which holds references to this layout.
    RootAfter(ValueId, Option<LayoutId>),
    /// A value of this type is stored by a barrier, into a place of this type.
    Barrier { stored: TypeId, place_type: TypeId },
    NameNull,
    NameObject,
    /// The value and the object of a barrier are changed round.
    ChangeRound,
    NameItself,
    /// A word of a promise goes.
    WeakerPromise,
    Declare(Runtime),
    /// The types with which the function that is declared so is called.
    CallTypes(Runtime),
    PromiseLayout,
    PromiseResult,
    /// A parameter is promised to be a number, as an address outside of the module is.
    PromiseNumber,
    /// A result is.
    PromiseNumberResult,
    Define,
    TakeKnown,
    /// A claim of a value is listed under each block of the diagnosis that does not list it.
    List(ValueId, Fact),
}
