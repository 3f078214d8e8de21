//! What is told of the codes K11 to K20. Made by bench/rules.py from crates/explain/codes: do not edit it.

pub(crate) const K11: &str = "\
K11  Each alloca is in the entry block.

So is that of a buffer, with `--forms wide`: what its name means is made once
for each frame.

Why: The slots of a frame are fixed when the frame is made, so the collector
finds the same ones at each safepoint.

Refused: `dgc check` prints `no @deep %next 0 K11`.

    define void @deep() {
    entry:
      br label %next
    next:
      %s = alloca i64
      ret void
    }

    cert 1
    function @deep none
    block %next
    end

Accepted, with the same certificate: `dgc check` prints `yes 1`.

    define void @deep() {
    entry:
      %s = alloca i64
      br label %next
    next:
      ret void
    }

See also: K9 (the head of the entry block)
";

pub(crate) const K12: &str = "\
K12  A function that moves references has a shadow stack.

One that takes, returns, loads, stores, chooses or passes a reference is written
with `gc \"shadow-stack\"`. The types that are written tell it, so an address
outside of the module counts too where its type is one of references. The first
instruction of the function is named.

Why: The collector finds the root slots of a frame through the shadow stack.
Without one they would not be handed over.

Refused: `dgc check` prints `no @one %entry 0 K12`.

    %Node = type { i64, ptr }
    define void @one(ptr %n) {
    entry:
      ret void
    }

    cert 2
    layout Node 1 ref Node
    function @one none
    param %n ref Node
    end

Accepted, with the same certificate: `dgc check` prints `yes 1`.

    %Node = type { i64, ptr }
    define void @one(ptr %n) gc \"shadow-stack\" {
    entry:
      ret void
    }

See also: K8 (root slots)
";

pub(crate) const K13: &str = "\
K13  What is promised of a parameter is known of the argument.

An argument is an address outside of the module exactly where `i64` is promised
of a pointer, and null is none. What is promised is also asked of the arguments
with which a thread starts (`dgc replay`, `soak` and `run`).

Why: A function is checked with its `param` lines as facts, so each caller has
to keep them.

Refused: `dgc check` prints `no @of %entry 0 K13`.

    %Node = type { i64, ptr }
    define i64 @value(ptr %n) gc \"shadow-stack\" {
    entry:
      %p = getelementptr %Node, ptr %n, i32 0, i32 0
      %v = load i64, ptr %p
      ret i64 %v
    }
    define i64 @of(ptr %n) gc \"shadow-stack\" {
    entry:
      %v = call i64 @value(ptr %n)
      ret i64 %v
    }

    cert 2
    layout Node 1 ref Node
    function @value none
    param %n ref Node nonnull
    end
    function @of none
    param %n ref Node
    end

Accepted, with the same module: `dgc check` prints `yes 2`.

    cert 2
    layout Node 1 ref Node
    function @value none
    param %n ref Node nonnull
    end
    function @of none
    param %n ref Node nonnull
    end

See also: K14 (promises of results), docs/CERTIFICATES.md
";

pub(crate) const K14: &str = "\
K14  What is promised of the result is known where the function returns.

What is returned is an address outside of the module exactly where `i64` is
promised of a pointer, and null is none.

Why: Callers go on with the `result` line as a fact. Here dg_alloc gives null
where each of its tries found no free cell.

Refused: `dgc check` prints `no @make %entry 1 K14`.

    %Node = type { i64, ptr }
    declare ptr @dg_alloc(i32)
    define ptr @make() gc \"shadow-stack\" {
    entry:
      %a = call ptr @dg_alloc(i32 0)
      ret ptr %a
    }

    cert 2
    layout Node 1 ref Node
    function @make none
    result ref Node nonnull
    end

Accepted, with the same module: `dgc check` prints `yes 1`.

    cert 2
    layout Node 1 ref Node
    function @make none
    result ref Node
    end

See also: K13 (promises of parameters), K4 (null)
";

pub(crate) const K15: &str = "\
K15  Each claim at a block is implied on each edge into it.

After the rule the target and its claim are printed. A claim may be weaker than
what is known at the end of the edge. Where a safepoint came before the edge, a
reference that was in a register there is stale: load it again from its root
slot, or claim that it is `stale`. In the example the loop goes on with a node
that may be null.

Why: The block is checked with its claims alone, so whoever enters it has to
imply them.

Refused: `dgc check` prints `no @walk %loop 4 K15 %loop %p ref Node nonnull`.

    %Node = type { i64, ptr }
    define i64 @walk(ptr %n, i64 %k) gc \"shadow-stack\" {
    entry:
      br label %loop
    loop:
      %p = phi ptr [ %n, %entry ], [ %q, %loop ]
      %f = getelementptr %Node, ptr %p, i32 0, i32 1
      %q = load ptr, ptr %f
      %c = icmp eq i64 %k, 0
      br i1 %c, label %out, label %loop
    out:
      ret i64 0
    }

    cert 2
    layout Node 1 ref Node
    function @walk none
    param %n ref Node nonnull
    block %loop
    %p ref Node nonnull
    %k i64
    block %out
    end

Accepted, with the same certificate: `dgc check` prints `yes 1`.

    %Node = type { i64, ptr }
    define i64 @walk(ptr %n, i64 %k) gc \"shadow-stack\" {
    entry:
      br label %loop
    loop:
      %p = phi ptr [ %n, %entry ], [ %q, %loop ]
      %f = getelementptr %Node, ptr %p, i32 0, i32 1
      %q = load ptr, ptr %f
      %c = icmp eq ptr %q, null
      br i1 %c, label %out, label %loop
    out:
      ret i64 0
    }

See also: K3 (stale references), what each claim says in docs/CERTIFICATES.md
";

pub(crate) const K16: &str = "\
K16  A phi has an entry for each block from which its own is entered, and for no
     other.

Where a block is named twice, the two entries are the same. In the example no
branch leads from `%two` to itself.

Why: Otherwise the phi would take a value that nobody gave.

Refused: `dgc check` prints `no @choose %two 0 K16`.

    define i64 @choose(i1 %c) {
    entry:
      br i1 %c, label %one, label %two
    one:
      br label %two
    two:
      %v = phi i64 [ 1, %one ], [ 2, %entry ], [ 3, %two ]
      ret i64 %v
    }

    cert 1
    function @choose none
    param %c below 2
    block %one
    block %two
    %v i64
    end

Accepted, with the same certificate: `dgc check` prints `yes 1`.

    define i64 @choose(i1 %c) {
    entry:
      br i1 %c, label %one, label %two
    one:
      br label %two
    two:
      %v = phi i64 [ 1, %one ], [ 2, %entry ]
      ret i64 %v
    }

See also: K15 (claims on edges)
";

pub(crate) const K17: &str = "\
K17  A function that is marked `none` reaches no safepoint.

It calls neither dg_safepoint nor a function that is marked `may`. dg_alloc is
no safepoint.

Why: A caller keeps its references in registers over such a call, where the
collector does not see them.

Refused: `dgc check` prints `no @wait %entry 0 K17`.

    declare void @dg_safepoint()
    define void @wait() {
    entry:
      call void @dg_safepoint()
      ret void
    }

    cert 1
    function @wait none
    end

Accepted, with the same module: `dgc check` prints `yes 1`.

    cert 1
    function @wait may
    end

See also: K3 (what becomes of registers at a safepoint)
";

pub(crate) const K18: &str = "\
K18  A call is of a function that the module defines, or of one of the runtime's
     five, with its arguments.

The runtime's functions are dg_alloc, dg_safepoint and the intrinsics gcroot,
gcread and gcwrite. Each has to be declared with its own types. With `--forms
wide` LLVM's functions of integers and of floating point numbers, as
llvm.smax.i32 and llvm.sqrt.f64, are called so too, and so is a function that is
only declared and gives a number, a pointer or nothing, if the certificate has
`foreign @f none`. The pointer is taken for an address outside of the module. A
call with another number of arguments is refused too. In such a call gcroot may
still name a slot, gcread and gcwrite an address, and each function an address
outside, so that K18 is what is told. A function that is only declared may get
addresses outside past its parameters, as `...` allows.

Why: Of any other function nothing is known: it could reach a safepoint, keep a
reference, or store one without a barrier. A line `foreign` promises that it
does not; nothing checks that, and `check` names the functions that are trusted.

Refused: `dgc check` prints `no @ask %entry 0 K18`.

    declare void @other()
    define void @ask() {
    entry:
      call void @other()
      ret void
    }

    cert 1
    function @ask none
    end

Accepted: `dgc check` prints `yes 2`.

    define void @other() {
    entry:
      ret void
    }
    define void @ask() {
    entry:
      call void @other()
      ret void
    }

    cert 1
    function @other none
    end
    function @ask none
    end

See also: docs/FRONT_ENDS.md (the five declarations), docs/CERTIFICATES.md
(`foreign`)
";

pub(crate) const K19: &str = "\
K19  A bitcast leads to the same type, or to one of the same layout.

A bitcast of `ptr` to `ptr` is the same value under another name. With typed
pointers `%L*` and `i8*` are references to a cell of L, and `%L**` and `i8**`
are places of such references. The same holds of a global that is used under
another type, `bitcast (%Node** @g to i8**)`. With `--forms wide` a number may
become one of another type of as many bits, as a `double` becomes an `i64`, but
a constant may not. An address outside of the module may become one of each
pointer type.

Why: By another type a word would be taken for what it is not, and the collector
would follow a number, or miss a reference.

Refused: `dgc check` prints `no @as_pair %entry 0 K19`.

    %Node = type { i64, %Node* }
    %Pair = type { i64, i64 }
    define i64 @as_pair(%Node* %n) gc \"shadow-stack\" {
    entry:
      %x = bitcast %Node* %n to %Pair*
      %p = getelementptr %Pair, %Pair* %x, i32 0, i32 1
      %v = load i64, i64* %p
      ret i64 %v
    }

    cert 1
    function @as_pair none
    param %n nonnull
    end

Accepted: `dgc check` prints `yes 1`.

    %Node = type { i64, %Node* }
    define i8* @as_any(%Node* %n) gc \"shadow-stack\" {
    entry:
      %x = bitcast %Node* %n to i8*
      ret i8* %x
    }

    cert 1
    function @as_any none
    result ref Node
    end

See also: K2 (types of operands)
";

pub(crate) const K20: &str = "\
K20  A thread starts at a function that takes no reference.

This is asked where a thread is started: by `dgc replay`, `soak` and `run`. `dgc
check` never prints it.

Why: A thread has no reference before it starts. One that it was given would be
in no slot, so the collector would not see it.

Refused: `dgc replay --shapes` prints `error K20 t 0`.

    %Node = type { i64, ptr }
    define void @begin(ptr %n) gc \"shadow-stack\" {
    entry:
      ret void
    }

    trace 1
    start @begin
    steps
    t 0 1
    end

    shapes 1
    layout Node 1 ref Node

Accepted, with the same shapes: `dgc replay --shapes` begins with `sound 1`.

    %Node = type { i64, ptr }
    define void @begin(i64 %n) gc \"shadow-stack\" {
    entry:
      ret void
    }

    trace 1
    start @begin 7
    steps
    t 0 1
    end

See also: K13 (arguments of a start), docs/TRACES.md
";
