//! L7: which option of which tool leaves a form out.
use std::str;

const DEBUG: &str = "leave debug information out: clang -g0, or opt -passes=strip,globaldce";

const VECTORS: &str = "leave vectors out: clang -fno-vectorize -fno-slp-vectorize";

const FLOATS: &str = "no floating point is read: keep it out of the functions that are checked";

const OTHER_FLOATS: &str = "of the types of floating point, float and double are read";

const DIVISION: &str =
    "no division and no shift is read: add, sub, mul, and, or, xor, zext, sext and trunc are";

const CASTS: &str =
    "a pointer is never a number here: keep references as references, and other addresses out";

const EXCEPTIONS: &str = "leave exceptions out: clang -fno-exceptions, or C in place of C++";

const MEMORY: &str =
    "leave calls of memcpy and memset out: clang -O1 -fno-builtin, and copy word by word";

const LIFETIMES: &str =
    "clang -O0 writes none of these; clang -Xclang -disable-lifetime-markers leaves them out at -O1";

const AGGREGATES: &str =
    "keep structs and arrays out of registers and slots: clang -O1 -Xclang -disable-llvm-passes, and then opt -passes=sroa; return a struct through the heap";

const POISON: &str = "a value that is not defined: give each variable a first value in the source";

const MIN_MAX: &str =
    "passes make these from a comparison and a select: clang -O1 -Xclang -disable-llvm-passes and opt -passes=mem2reg do not";

const CALLS: &str = "call functions by their names, with a fixed number of arguments";

const CONSTANTS: &str = "write it as an instruction, before the one that uses it";

const GLOBALS: &str = "define the global in this module, with a value";

const ATOMICS: &str = "threads meet at the heap and its barriers only: leave it out";

fn of_kind(word: &str) -> Option<&'static str> {
    match word {
        "sdiv" | "udiv" | "srem" | "urem" | "shl" | "lshr" | "ashr" => Some(DIVISION),
        "half"
        | "bfloat"
        | "float"
        | "double"
        | "fadd"
        | "fsub"
        | "fmul"
        | "fdiv"
        | "fneg"
        | "fcmp"
        | "fptosi"
        | "sitofp"
        | "uitofp"
        | "fptoui"
        | "x86_fp80"
        | "fp128" => Some(FLOATS),
        "<" | "extractelement" | "insertelement" | "shufflevector" => Some(VECTORS),
        "ptrtoint" | "inttoptr" | "ptrtoaddr" | "addrspacecast" | "addrspace" => Some(CASTS),
        "invoke" | "landingpad" | "resume" | "personality" | "catchpad" | "cleanuppad" => {
            Some(EXCEPTIONS)
        }
        _ => None,
    }
}

fn of_form(word: &str) -> Option<&'static str> {
    match word {
        "{" | "[" | "extractvalue" | "insertvalue" | "byval" | "sret" => Some(AGGREGATES),
        "poison" | "freeze" => Some(POISON),
        "..." | "va_arg" | "musttail" | "callbr" | "indirectbr" | "(" => Some(CALLS),
        "external" | "extern_weak" | "alias" | "ifunc" => Some(GLOBALS),
        "atomic" | "atomicrmw" | "cmpxchg" | "fence" | "thread_local" => Some(ATOMICS),
        "getelementptr"
        | "add"
        | "sub"
        | "mul"
        | "and"
        | "or"
        | "xor"
        | "zext"
        | "sext"
        | "trunc"
        | "icmp"
        | "select" => Some(CONSTANTS),
        _ => None,
    }
}

fn of_intrinsic(word: &str) -> &'static str {
    if word.starts_with("@llvm.dbg") {
        DEBUG
    } else if word.starts_with("@llvm.mem") {
        MEMORY
    } else if word.starts_with("@llvm.lifetime") {
        LIFETIMES
    } else if word.starts_with("@llvm.") {
        MIN_MAX
    } else {
        ""
    }
}

fn of_word(word: &str) -> &'static str {
    match of_kind(word) {
        Some(advice) => advice,
        None => match of_form(word) {
            Some(advice) => advice,
            None => of_intrinsic(word),
        },
    }
}

/// Whether an instruction on integers that is one of the wide forms begins with this word.
fn is_wide_integer(word: &str) -> bool {
    matches!(
        word,
        "sdiv" | "udiv" | "srem" | "urem" | "shl" | "lshr" | "ashr" | "freeze"
    )
}

/// Whether an instruction on floating point numbers begins with this word.
fn is_float(word: &str) -> bool {
    matches!(
        word,
        "fadd" | "fsub" | "fmul" | "fdiv" | "frem" | "fneg" | "fcmp"
    )
}

/// Whether an instruction that changes a number from or to a floating point one begins with this word.
fn is_conversion(word: &str) -> bool {
    matches!(
        word,
        "fpext" | "fptrunc" | "fptosi" | "fptoui" | "sitofp" | "uitofp"
    )
}

/// What is said of a form that is left out where the wide forms may stand, if it is another thing than where they may not.
fn of_wide(word: &str) -> Option<&'static str> {
    match word {
        "half" | "bfloat" | "x86_fp80" | "fp128" | "ppc_fp128" => Some(OTHER_FLOATS),
        "float" | "double" => Some(""),
        _ if is_wide_integer(word) || is_float(word) || is_conversion(word) => Some(CONSTANTS),
        _ => None,
    }
}

/// What is said of a form that begins with this word.
fn advice_of(word: &str, wide: bool) -> &'static str {
    if !wide {
        return of_word(word);
    }
    match of_wide(word) {
        Some(advice) => advice,
        None => of_word(word),
    }
}

/// How a form that begins with this token is left out of a text in which the wide forms may stand or not; nothing where no option does
/// that.
pub fn advice_on(word: &[u8], wide: bool) -> &'static str {
    match str::from_utf8(word) {
        Ok(word) => advice_of(word, wide),
        Err(_) => "",
    }
}
