//! What is told of the codes K1 to K10. Made by bench/rules.py from crates/explain/codes: do not edit it.

pub(crate) const K1: &str = "\
K1  Each operand is available where it is used.

A value is known to be a number, a reference, an address outside of the module,
or the address of words of a cell to which an available reference leads. In a
block that is entered from others it is known by the claims of the certificate
at that block. Slots, globals and constants are available everywhere. A
parameter or a result of type `ptr` is a reference where the certificate says of
which layout (`ref L`), and with `--forms wide` an address outside where it says
`i64`.

Why: Otherwise a register could be used that was never set on the way taken, or
that two edges into the block set to different kinds of values.

Refused: `dgc check` prints `no @later %next 0 K1`.

    define i64 @later(i64 %k) {
    entry:
      br label %next
    next:
      ret i64 %k
    }

    cert 1
    function @later none
    block %next
    end

Accepted, with the same module: `dgc check` prints `yes 1`.

    cert 1
    function @later none
    block %next
    %k i64
    end

See also: K15 (claims on edges), docs/CERTIFICATES.md
";

pub(crate) const K2: &str = "\
K2  Each operand has its written type, and fits.

A number is one of its bits. With `--forms wide` a `float` is one of 32 bits and
a `double` one of 64, and no index is of these types. A reference goes where its
layout fits. A load or a store has the type of each word at which it may be;
under `ptr` these words are references of one layout. The number of dg_alloc is
a constant that means a layout: the struct at this place of the text, from 0, or
where the certificate has lines `number` the layout of its line. An address is
allowed only as the place of a load, a store, gcread or gcwrite, or as the
operand of getelementptr or bitcast; with `--forms wide` also as an entry of a
phi, of which nothing is known then. The count of a buffer is a number. A global
is the address of its word, so its value has to be loaded. With `--forms wide` a
pointer may be an address outside of the module. Numbers and addresses outside
are loaded and stored there, and no reference is, null neither. Such an address
is compared with another one or with null, chosen with another one, passed on
and returned, and it is the base of a getelementptr. No cell, no global and no
slot takes it. A function outside takes it, numbers and null, and nothing else.

Why: What the collector follows as a reference has to be one, and a cell's words
have to be those of its layout. An address is no reference that could be kept:
neither a slot nor a word could hold it. The collector sees nothing outside of
the module, so no reference is kept there.

Refused: `dgc check` prints `no @empty %entry 0 K2`.

    %Node = type { i64, ptr }
    @g = global ptr null
    define i1 @empty() {
    entry:
      %c = icmp eq ptr @g, null
      ret i1 %c
    }

    cert 2
    layout Node 1 ref Node
    global @g ref Node
    function @empty none
    end

Accepted, with the same certificate: `dgc check` prints `yes 1`.

    %Node = type { i64, ptr }
    @g = global ptr null
    define i1 @empty() gc \"shadow-stack\" {
    entry:
      %x = load ptr, ptr @g
      %c = icmp eq ptr %x, null
      ret i1 %c
    }

See also: K10 (slots), K19 (bitcasts)
";

pub(crate) const K3: &str = "\
K3  No reference is used that became stale at a safepoint.

At a call that may reach a safepoint every reference in a register becomes
stale, but for one that is known to be null. So does the base of an address.
What is used after it is loaded again from a root slot, a global or a word.

Why: The collector may have freed the cell in the meantime. It knows the root
slots, and no register.

Refused: `dgc check` prints `no @read %entry 1 K3`.

    %Node = type { i64, ptr }
    declare void @dg_safepoint()
    define i64 @read(ptr %n) gc \"shadow-stack\" {
    entry:
      call void @dg_safepoint()
      %p = getelementptr %Node, ptr %n, i32 0, i32 0
      %v = load i64, ptr %p
      ret i64 %v
    }

    cert 2
    layout Node 1 ref Node
    function @read may
    param %n ref Node nonnull
    end

Accepted: `dgc check` prints `yes 1`.

    %Node = type { i64, ptr }
    declare void @dg_safepoint()
    declare void @llvm.gcroot(ptr, ptr)
    define i64 @read(ptr %n) gc \"shadow-stack\" {
    entry:
      %s = alloca ptr
      call void @llvm.gcroot(ptr %s, ptr null)
      store ptr %n, ptr %s
      call void @dg_safepoint()
      %m = load ptr, ptr %s
      %p = getelementptr %Node, ptr %m, i32 0, i32 0
      %v = load i64, ptr %p
      ret i64 %v
    }

    cert 2
    layout Node 1 ref Node
    root @read %s ref Node
    function @read may
    param %n ref Node nonnull
    end

See also: K8 (root slots), K17 (which calls reach a safepoint),
docs/WALKTHROUGH.md
";

pub(crate) const K4: &str = "\
K4  The base of a place is not null.

That a reference is not null is promised of a parameter (`nonnull`), claimed at
a block, or learnt from an `icmp` with null on the edge that a `br` takes.

Why: Null has no words. dg_alloc gives null where it finds no free cell, and
each word of a new cell is null.

Refused: `dgc check` prints `no @second %entry 1 K4`.

    %Node = type { i64, ptr }
    define ptr @second(ptr %n) gc \"shadow-stack\" {
    entry:
      %f = getelementptr %Node, ptr %n, i32 0, i32 1
      %x = load ptr, ptr %f
      ret ptr %x
    }

    cert 2
    layout Node 1 ref Node
    function @second none
    param %n ref Node
    result ref Node
    end

Accepted: `dgc check` prints `yes 1`.

    %Node = type { i64, ptr }
    define ptr @second(ptr %n) gc \"shadow-stack\" {
    entry:
      %c = icmp eq ptr %n, null
      br i1 %c, label %none, label %some
    none:
      ret ptr null
    some:
      %f = getelementptr %Node, ptr %n, i32 0, i32 1
      %x = load ptr, ptr %f
      ret ptr %x
    }

    cert 2
    layout Node 1 ref Node
    function @second none
    param %n ref Node
    result ref Node
    block %none
    block %some
    %n ref Node nonnull
    end

See also: K13 (promises of parameters), docs/FRONT_ENDS.md
";

pub(crate) const K5: &str = "\
K5  A getelementptr leads to words of the layout.

The first index is the constant 0, and another one comes after it. An index into
a struct is one of its fields. An index into an array is a constant below its
length, or a register that is known to be below a number that is at most the
length. A global has one word. From an address outside of the module it leads
anywhere, and nothing of this is asked. The result of one on null may not be
used (K1). An offset in bytes, `getelementptr i8, ptr %n, i64 8`, is refused: a
field is named by its index.

Why: A word outside the cell would be another cell's. What is put there by one
type could be read by another, and the collector would follow it.

Refused: `dgc check` prints `no @third %entry 0 K5`.

    %Node = type { i64, ptr }
    define i64 @third(ptr %n) gc \"shadow-stack\" {
    entry:
      %p = getelementptr %Node, ptr %n, i32 0, i32 2
      %v = load i64, ptr %p
      ret i64 %v
    }

    cert 2
    layout Node 1 ref Node
    function @third none
    param %n ref Node nonnull
    end

Accepted, with the same certificate: `dgc check` prints `yes 1`.

    %Node = type { i64, ptr }
    define i64 @third(ptr %n) gc \"shadow-stack\" {
    entry:
      %p = getelementptr %Node, ptr %n, i32 0, i32 0
      %v = load i64, ptr %p
      ret i64 %v
    }

See also: `below` in docs/CERTIFICATES.md, docs/FRONT_ENDS.md
";

pub(crate) const K6: &str = "\
K6  A reference is stored without a barrier only into a slot or a fresh cell.

A cell is fresh from dg_alloc on while nothing else leads to it: no word holds
it, it was passed to no function, it took part in no phi or select, and no
safepoint came. A global is never fresh. Null is stored by the same rule, since
it overwrites too.

Why: While the collector looks for what is reached, a plain store may overwrite
the last reference to a cell that it has not found yet, or put one where it has
looked already. That cell would be freed though a thread still holds it. gcwrite
marks the cell whose reference it overwrites and, while a cycle begins, the one
that it stores.

Refused: `dgc check` prints `no @cut %entry 1 K6`.

    %Node = type { i64, ptr }
    define void @cut(ptr %n) gc \"shadow-stack\" {
    entry:
      %f = getelementptr %Node, ptr %n, i32 0, i32 1
      store ptr null, ptr %f
      ret void
    }

    cert 2
    layout Node 1 ref Node
    function @cut none
    param %n ref Node nonnull
    end

Accepted, with the same certificate: `dgc check` prints `yes 1`.

    %Node = type { i64, ptr }
    declare void @llvm.gcwrite(ptr, ptr, ptr)
    define void @cut(ptr %n) gc \"shadow-stack\" {
    entry:
      %f = getelementptr %Node, ptr %n, i32 0, i32 1
      call void @llvm.gcwrite(ptr null, ptr null, ptr %f)
      ret void
    }

See also: K7 (the object of a barrier), docs/COLLECTOR.md
";

pub(crate) const K7: &str = "\
K7  The object that gcread and gcwrite name is null, or the cell that has the
    place.

It is known to be so where the object is the same reference as the base of the
place. A global is in no object, so its object is null.

Why: A barrier may look at the object in place of the word, so another object
would mislead it.

Refused: `dgc check` prints `no @next %entry 1 K7`.

    %Node = type { i64, ptr }
    declare ptr @llvm.gcread(ptr, ptr)
    define ptr @next(ptr %n, ptr %other) gc \"shadow-stack\" {
    entry:
      %f = getelementptr %Node, ptr %n, i32 0, i32 1
      %r = call ptr @llvm.gcread(ptr %other, ptr %f)
      ret ptr %r
    }

    cert 2
    layout Node 1 ref Node
    function @next none
    param %n ref Node nonnull
    param %other ref Node
    result ref Node
    end

Accepted, with the same certificate: `dgc check` prints `yes 1`.

    %Node = type { i64, ptr }
    declare ptr @llvm.gcread(ptr, ptr)
    define ptr @next(ptr %n, ptr %other) gc \"shadow-stack\" {
    entry:
      %f = getelementptr %Node, ptr %n, i32 0, i32 1
      %r = call ptr @llvm.gcread(ptr %n, ptr %f)
      ret ptr %r
    }

See also: K6 (where a barrier is needed)
";

pub(crate) const K8: &str = "\
K8  An alloca holds a number, or is a root slot.

With `--forms wide` it may make a buffer: of an array, of a struct, or with a
count. The address of a buffer is one outside of the module. With typed pointers
slots of `i8*` are refused too: the text does not say the layout of what they
hold. A slot is refused at its alloca, also where a load before it names it.

Why: A slot that no gcroot names is not seen by the collector. What it holds
could be freed.

Refused: `dgc check` prints `no @keep %entry 0 K8`.

    %Node = type { i64, ptr }
    define void @keep(ptr %n) gc \"shadow-stack\" {
    entry:
      %s = alloca ptr
      store ptr %n, ptr %s
      ret void
    }

    cert 2
    layout Node 1 ref Node
    function @keep none
    param %n ref Node
    end

Accepted: `dgc check` prints `yes 1`.

    %Node = type { i64, ptr }
    declare void @llvm.gcroot(ptr, ptr)
    define void @keep(ptr %n) gc \"shadow-stack\" {
    entry:
      %s = alloca ptr
      call void @llvm.gcroot(ptr %s, ptr null)
      store ptr %n, ptr %s
      ret void
    }

    cert 2
    layout Node 1 ref Node
    root @keep %s ref Node
    function @keep none
    param %n ref Node
    end

See also: K9 (where a gcroot stands)
";

pub(crate) const K9: &str = "\
K9  A gcroot is in the head of the entry block, names a slot of references that
    no gcroot named before, and its metadata is null.

The head is the front of the block that has only allocas, also of buffers,
bitcasts of slots, gcroots, and stores of constants and parameters into slots.

Why: Each slot is a root before anything happens that the collector sees, and
the roots of a frame are the same all along.

Refused: `dgc check` prints `no @late %entry 2 K9`.

    %Node = type { i64, ptr }
    declare ptr @dg_alloc(i32)
    declare void @llvm.gcroot(ptr, ptr)
    define void @late() gc \"shadow-stack\" {
    entry:
      %s = alloca ptr
      %a = call ptr @dg_alloc(i32 0)
      call void @llvm.gcroot(ptr %s, ptr null)
      ret void
    }

    cert 2
    layout Node 1 ref Node
    root @late %s ref Node
    function @late none
    end

Accepted, with the same certificate: `dgc check` prints `yes 1`.

    %Node = type { i64, ptr }
    declare ptr @dg_alloc(i32)
    declare void @llvm.gcroot(ptr, ptr)
    define void @late() gc \"shadow-stack\" {
    entry:
      %s = alloca ptr
      call void @llvm.gcroot(ptr %s, ptr null)
      %a = call ptr @dg_alloc(i32 0)
      ret void
    }

See also: K8 (which slots need a gcroot), K11 (where an alloca stands)
";

pub(crate) const K10: &str = "\
K10  A slot is only the place of a load or a store, the argument of gcroot, and
     the operand of a bitcast.

In the place of a value of type `ptr` it is refused by K2.

Why: A slot is the thread's own, and no cell. The barriers are for cells, and
the address of a slot may go nowhere.

Refused: `dgc check` prints `no @top %entry 2 K10`.

    %Node = type { i64, ptr }
    declare void @llvm.gcroot(ptr, ptr)
    declare ptr @llvm.gcread(ptr, ptr)
    define ptr @top() gc \"shadow-stack\" {
    entry:
      %s = alloca ptr
      call void @llvm.gcroot(ptr %s, ptr null)
      %x = call ptr @llvm.gcread(ptr null, ptr %s)
      ret ptr %x
    }

    cert 2
    layout Node 1 ref Node
    root @top %s ref Node
    function @top none
    result ref Node
    end

Accepted, with the same certificate: `dgc check` prints `yes 1`.

    %Node = type { i64, ptr }
    declare void @llvm.gcroot(ptr, ptr)
    define ptr @top() gc \"shadow-stack\" {
    entry:
      %s = alloca ptr
      call void @llvm.gcroot(ptr %s, ptr null)
      %x = load ptr, ptr %s
      ret ptr %x
    }

See also: K6 (slots need no barrier)
";
