/// What a token is. Words of a form of an item, an instruction, a type or a constant have kinds of their own.
#[derive(Clone, Copy)]
pub enum Kind {
    /// What comes after the last token. No token has this kind.
    End,

    // Words of items.
    Define,
    Declare,
    Type,
    /// The word `global`.
    Global,
    Constant,
    SourceFilename,
    Target,
    Datalayout,
    Triple,
    Attributes,
    Comdat,
    Gc,
    /// The word `external`: a linkage, and a global without an initializer.
    External,
    /// The word `extern_weak`: a linkage, and a global without an initializer.
    ExternWeak,

    // Words of types.
    Void,
    /// The word `label`.
    Label,
    /// The word `x` between the length of an array and the type of its elements.
    X,
    /// The word `ptr`: a pointer type that does not say what it points to.
    Ptr,
    /// The letter `i` with digits after it, and nothing else.
    IntegerType,

    // Words of constants.
    Null,
    True,
    False,
    Undef,
    Zeroinitializer,

    // Words of instructions.
    Alloca,
    Load,
    Store,
    Getelementptr,
    Bitcast,
    Add,
    Sub,
    Mul,
    And,
    Or,
    Xor,
    Zext,
    Sext,
    Trunc,
    Icmp,
    Select,
    Phi,
    Call,
    Br,
    Switch,
    Ret,
    Unreachable,
    To,

    // The conditions of icmp.
    Eq,
    Ne,
    Ugt,
    Uge,
    Ult,
    Ule,
    Sgt,
    Sge,
    Slt,
    Sle,

    // Words that are read without effect.
    Align,
    Inbounds,
    Volatile,
    Nsw,
    Nuw,
    Nusw,
    Nneg,
    Disjoint,
    Samesign,
    Tail,
    Notail,

    /// A word of a form that is left out.
    LeftOut,
    /// Three dots, of a function with a variable number of arguments.
    Dots,
    /// Any other word made of a lower-case letter and then lower-case letters, digits and `_`.
    LowercaseWord,
    /// Any other word.
    Word,

    // Names and numbers.
    /// `%name` or `%"name"`.
    LocalName,
    /// `%5`.
    LocalNumber,
    /// `@name` or `@"name"`.
    GlobalName,
    /// A name or quoted text with `:` directly after it.
    LabelName,
    /// Digits with `:` directly after them.
    LabelNumber,
    /// `"text"`.
    Quoted,
    /// Digits, with or without `-` before them.
    Number,
    /// `#5`.
    AttributeGroup,
    /// `#dbg_value`, and any other `#` with a name that begins so.
    DebugRecord,
    /// `!name`.
    MetadataName,
    /// `!5`.
    MetadataNumber,

    // Signs.
    /// `!` with neither a name nor a number after it.
    Exclamation,
    Equals,
    Comma,
    OpenRound,
    CloseRound,
    OpenSquare,
    CloseSquare,
    OpenBrace,
    CloseBrace,
    Star,
    Less,
    Greater,
    Bar,
    /// `+`, which stands in numbers with an exponent alone.
    Plus,
}

/// A token: what it is, and which bytes of the text spell it.
#[derive(Clone, Copy)]
pub struct Token {
    pub kind: Kind,
    /// Whether no token is before it on its line: it is the first of the text, or a line ends between it and the
    /// token before it.
    pub begins_line: bool,
    /// Where its first byte is, from 0: the sign before a name, the quote before a text.
    pub start: u32,
    /// How many bytes spell it, with its sign, its quotes and the `:` of a label.
    pub length: u32,
}
