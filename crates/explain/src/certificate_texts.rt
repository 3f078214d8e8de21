//! What is told of the codes C1 to C6. Made by bench/rules.py from crates/explain/codes: do not edit it.

pub(crate) const C1: &str = "\
C1  A certificate has the form of docs/CERTIFICATES.md, and each fact fits the
    written type of its value.

The place is the first word, or the end of the line, with which no form goes on.
Words of a claim have an order: `nonnull` comes before `fresh` and `stale`. A
tab parts no words. Lines `number` and then lines `foreign` stand directly after
the first line, and only with `--forms wide`. The number of a layout is below
4294967296. The one fault of a text of edits is C1 too.

Why: A claim is taken as it stands. One that is misread would be checked for
what its author did not claim.

Refused: `dgc check` prints `error C1 5:19`.

    %Node = type { i64, ptr }
    declare ptr @dg_alloc(i32)
    define void @new() gc \"shadow-stack\" {
    entry:
      %a = call ptr @dg_alloc(i32 0)
      br label %next
    next:
      ret void
    }

    cert 2
    layout Node 1 ref Node
    function @new none
    block %next
    %a ref Node fresh nonnull
    end

Accepted, with the same module: `dgc check` prints `yes 1`.

    cert 2
    layout Node 1 ref Node
    function @new none
    block %next
    %a ref Node fresh
    end

See also: docs/CERTIFICATES.md, docs/EDITS.md
";

pub(crate) const C2: &str = "\
C2  A certificate begins with `cert 1` where the module has typed pointers, and
    with `cert 2` where it has `ptr`.

A module without pointers goes with either. The place is that of the number.

Why: Another version may give the same words another meaning.

Refused: `dgc check` prints `error C2 1:6`.

    define void @go() {
    entry:
      br label %out
    out:
      ret void
    }

    cert 3
    function @go none
    block %out
    end

Accepted, with the same module: `dgc check` prints `yes 1`.

    cert 1
    function @go none
    block %out
    end

See also: C6 (what `cert 2` has besides), docs/CERTIFICATES.md
";

pub(crate) const C3: &str = "\
C3  A certificate names what is in the module, in the function, or at the block.

A `slot` is a root slot. A name after `same`, `holds` or `addr` is listed at the
same block, or is a global. A section is of a function that the module defines,
and a line `foreign` of one that it only declares, which is none of the runtime
and no intrinsic.

Why: A claim about nothing could not be checked. It is most often a name that
was changed in the module alone.

Refused: `dgc check` prints `error C3 3:7`.

    define void @go() {
    entry:
      br label %out
    out:
      ret void
    }

    cert 1
    function @go none
    block %our
    end

Accepted, with the same module: `dgc check` prints `yes 1`.

    cert 1
    function @go none
    block %out
    end

See also: C5 (what the certificate lacks)
";

pub(crate) const C4: &str = "\
C4  Each function, block, value, slot and fact is listed once.

So is each function outside, on a line `foreign`, and each layout and each
number on lines `number`. The place is that of the second one.

Why: Two lists would not say which of them is meant.

Refused: `dgc check` prints `error C4 5:1`.

    define i64 @later(i64 %k) {
    entry:
      br label %next
    next:
      ret i64 %k
    }

    cert 1
    function @later none
    block %next
    %k i64
    %k i64 below 9
    end

Accepted, with the same module: `dgc check` prints `yes 1`.

    cert 1
    function @later none
    block %next
    %k i64
    end

See also: docs/CERTIFICATES.md
";

pub(crate) const C5: &str = "\
C5  Each defined function has a section, and in it each block but the entry one.

The function is printed, and the block if its section is there. A block at which
nothing is claimed has a line of its own too. It is looked for only in a text
without another fault.

Why: The check begins each block with what is claimed there. A missing section
is most often a function or a block that the certificate's author does not know.

Refused: `dgc check` prints `error C5 @go %out`.

    define void @go() {
    entry:
      br label %out
    out:
      ret void
    }

    cert 1
    function @go none
    end

Accepted, with the same module: `dgc check` prints `yes 1`.

    cert 1
    function @go none
    block %out
    end

See also: K15 (claims on edges), docs/CERTIFICATES.md
";

pub(crate) const C6: &str = "\
C6  The shapes name the layout of each `ptr` word, each `ptr` global and each
    root slot.

They stand after the line `cert 2`, or in a file that begins with `shapes 1`.
The struct with the number of the word is printed, or the global, or the
function with the slot. The first that is missing is named: words first, then
globals, then slots. It is looked for only in a text without a fault of C1 to
C4. A module without shapes is Y5.

Why: The collector follows each reference to a cell of one layout, and the type
`ptr` tells none.

Refused: `dgc check` prints `error C6 @g`.

    %Node = type { i64, ptr }
    @g = global ptr null
    define void @idle() {
    entry:
      ret void
    }

    cert 2
    layout Node 1 ref Node
    function @idle none
    end

Accepted, with the same module: `dgc check` prints `yes 1`.

    cert 2
    layout Node 1 ref Node
    global @g ref Node
    function @idle none
    end

See also: C2 (which version), Y5 (no shapes at all), docs/CERTIFICATES.md
";
