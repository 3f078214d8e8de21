//! How the functions of the runtime and LLVM's functions of numbers are declared.
use crate::message::Message;
use crate::parts::{Change, ChangedFile};
use crate::pointers::Pointers;
use ir_ast::{
    Declare, FloatFunction, FloatsTaken, IntegerFunction, IntegersTaken, Module, Runtime,
    floats_taken, floats_word, integers_taken, integers_word,
};
use ir_tokens::{Kind, Token};
use std::alloc::{AllocError, Global};

/// The line that declares one of LLVM's functions of integers.
fn put_integers_declare(out: &mut Message, function: IntegerFunction, bits: u64) {
    out.put("declare i");
    out.put_number(bits);
    out.put(" @");
    out.put_bytes(integers_word(function));
    out.put_number(bits);
    out.put("(i");
    out.put_number(bits);
    put_others(out, integers_taken(function), bits);
    out.put(")")
}

/// The types of what a function of integers takes after the first one.
fn put_others(out: &mut Message, taken: IntegersTaken, bits: u64) {
    match taken {
        IntegersTaken::One => {}
        IntegersTaken::Flagged => out.put(", i1"),
        IntegersTaken::Two => put_other(out, bits),
        IntegersTaken::Three => {
            put_other(out, bits);
            put_other(out, bits)
        }
    }
}

fn put_other(out: &mut Message, bits: u64) {
    out.put(", i");
    out.put_number(bits)
}

/// The name of the floating point type of this number of bits, 32 or 64.
fn float_name(bits: u64) -> &'static str {
    if bits == 32 { "float" } else { "double" }
}

/// The line that declares one of LLVM's functions of floating point numbers.
fn put_floats_declare(out: &mut Message, function: FloatFunction, bits: u64) {
    let name = float_name(bits);
    out.put("declare ");
    out.put(name);
    out.put(" @");
    out.put_bytes(floats_word(function));
    out.put_number(bits);
    out.put("(");
    out.put(name);
    put_other_floats(out, floats_taken(function), name);
    out.put(")")
}

/// The types of what a function of floating point numbers takes after the first one.
fn put_other_floats(out: &mut Message, taken: FloatsTaken, name: &str) {
    match taken {
        FloatsTaken::One => {}
        FloatsTaken::Two => put_other_float(out, name),
        FloatsTaken::Three => {
            put_other_float(out, name);
            put_other_float(out, name)
        }
    }
}

fn put_other_float(out: &mut Message, name: &str) {
    out.put(", ");
    out.put(name)
}

fn put_typed_declare(out: &mut Message, runtime: &Runtime) {
    match runtime {
        Runtime::Alloc => out.put("declare i8* @dg_alloc(i32)"),
        Runtime::Safepoint => out.put("declare void @dg_safepoint()"),
        Runtime::GcRoot => out.put("declare void @llvm.gcroot(i8**, i8*)"),
        Runtime::GcRead => out.put("declare i8* @llvm.gcread(i8*, i8**)"),
        Runtime::GcWrite => out.put("declare void @llvm.gcwrite(i8*, i8*, i8**)"),
        Runtime::Integer { function, bits } => put_integers_declare(out, *function, *bits),
        Runtime::Float { function, bits } => put_floats_declare(out, *function, *bits),
    }
}

fn put_opaque_declare(out: &mut Message, runtime: &Runtime) {
    match runtime {
        Runtime::Alloc => out.put("declare ptr @dg_alloc(i32)"),
        Runtime::Safepoint => out.put("declare void @dg_safepoint()"),
        Runtime::GcRoot => out.put("declare void @llvm.gcroot(ptr, ptr)"),
        Runtime::GcRead => out.put("declare ptr @llvm.gcread(ptr, ptr)"),
        Runtime::GcWrite => out.put("declare void @llvm.gcwrite(ptr, ptr, ptr)"),
        Runtime::Integer { function, bits } => put_integers_declare(out, *function, *bits),
        Runtime::Float { function, bits } => put_floats_declare(out, *function, *bits),
    }
}

/// The line that declares a function of the runtime, or one of LLVM's functions of numbers.
pub fn put_declare_of(out: &mut Message, runtime: &Runtime, pointers: Pointers) {
    match pointers {
        Pointers::Typed => put_typed_declare(out, runtime),
        Pointers::Opaque => put_opaque_declare(out, runtime),
    }
}

/// How many bytes come before the first function of a text.
fn before_functions(tokens: &[Token]) -> usize {
    for token in tokens {
        if matches!(token.kind, Kind::Define) {
            return token.start as usize;
        }
    }
    0
}

/// The line that declares such a function, in front of the functions of a module's text with these tokens.
pub fn declare_change(
    alloc: Global,
    tokens: &[Token],
    runtime: &Runtime,
    pointers: Pointers,
) -> Result<Change, AllocError> {
    let mut line = Message::new(alloc);
    put_declare_of(&mut line, runtime, pointers);
    line.put("\n\n");
    Ok(Change {
        file: ChangedFile::Module,
        start: before_functions(tokens),
        length: 0,
        new: line.finish()?,
    })
}

/// Whether a declared function is this one of the runtime.
fn is_of(declared: &Declare, runtime: &Runtime) -> bool {
    matches!(
        (&declared.runtime, runtime),
        (Some(Runtime::Alloc), Runtime::Alloc)
            | (Some(Runtime::Safepoint), Runtime::Safepoint)
            | (Some(Runtime::GcRoot), Runtime::GcRoot)
            | (Some(Runtime::GcRead), Runtime::GcRead)
            | (Some(Runtime::GcWrite), Runtime::GcWrite)
    )
}

/// Whether a module declares a function of the runtime.
pub fn is_declared(of_module: &Module, runtime: &Runtime) -> bool {
    of_module
        .declares
        .as_slice()
        .iter()
        .any(|declared| is_of(declared, runtime))
}

/// That a function of the runtime is to be declared, where the module does not do that.
pub fn put_wanted_declare(out: &mut Message, of_module: &Module, runtime: &Runtime) {
    if is_declared(of_module, runtime) {
        return;
    }
    out.put("         and add this line outside the functions: ");
    put_declare_of(out, runtime, Pointers::of_module(of_module));
    out.put("\n")
}
