//! What is told of the codes Y1 to Y5. Made by bench/rules.py from crates/explain/codes: do not edit it.

pub(crate) const Y1: &str = "\
Y1  No struct holds itself by value.

The struct is printed, the first of the module. It may hold itself by way of
other structs and arrays. A pointer to it is one word.

Why: A cell has a fixed number of words, and such a struct would have no end.

Refused: `dgc check` prints `error Y1 List`.

    %List = type { i64, %List }
    define void @idle() {
    entry:
      ret void
    }

    cert 1
    function @idle none
    end

Accepted: `dgc check` prints `yes 1`.

    %List = type { i64, ptr }
    define void @idle() {
    entry:
      ret void
    }

    cert 2
    layout List 1 ref List
    function @idle none
    end

See also: Y2 (how many words)
";

pub(crate) const Y2: &str = "\
Y2  A struct has at most 64 words.

Nested structs and arrays are laid out in place, so each of their scalar fields
is a word.

Why: The collector looks at the words of a cell one after another, and a claim
about an address lists those that it may point to.

Refused: `dgc check` prints `error Y2 Row`.

    %Row = type { i64, [64 x i64] }
    define void @idle() {
    entry:
      ret void
    }

    cert 1
    function @idle none
    end

Accepted, with the same certificate: `dgc check` prints `yes 1`.

    %Row = type { i64, [63 x i64] }
    define void @idle() {
    entry:
      ret void
    }

See also: Y1 (structs that hold themselves), docs/TEXT.md
";

pub(crate) const Y3: &str = "\
Y3  Each word of a struct is an integer, or points to a named struct.

A word of type `ptr` refers to what the shapes name (C6). With `--forms wide` a
typed pointer to something else is a word of 64 bits, which no instruction reads
or writes.

Why: The collector follows each reference to a cell of one layout. A pointer to
an integer, or into the middle of a cell, tells it none.

Refused: `dgc check` prints `error Y3`.

    %Box = type { i64, i64* }
    define void @idle() {
    entry:
      ret void
    }

    cert 1
    function @idle none
    end

Accepted, with the same certificate: `dgc check` prints `yes 1`.

    %Box = type { i64, %Cell* }
    %Cell = type { i64 }
    define void @idle() {
    entry:
      ret void
    }

See also: docs/TEXT.md (\"Items\")
";

pub(crate) const Y4: &str = "\
Y4  The pools of a trace and the cell of the globals are at most 1,048,576
    cells.

No place is printed. It is looked for only where the trace has no other fault.
`dgc check` does not know this limit.

Why: A run takes memory by its cells. The safety theorem holds for any number of
them.

Refused: `dgc replay` prints `error Y4`.

    %Node = type { i64, %Node* }
    define void @idle() {
    entry:
      ret void
    }

    trace 1
    pool Node 1048576
    start @idle
    steps
    t 0 1
    end

Accepted, with the same module: `dgc replay` begins with `sound 1`.

    trace 1
    pool Node 1048575
    start @idle
    steps
    t 0 1
    end

See also: P3 (steps), docs/TRACES.md
";

pub(crate) const Y5: &str = "\
Y5  A module whose pointers are `ptr` is laid out with shapes.

`dgc make`, `replay` and `soak` have no certificate with shapes, so `--shapes
FILE` names a file of them. It begins with `shapes 1`, and then has the lines of
a certificate `cert 2` in front of its functions.

Why: A word of a cell is an integer or a reference of one layout, and the type
`ptr` does not tell which layout.

Refused: `dgc replay` prints `error Y5`.

    %Node = type { i64, ptr }
    @g = global ptr null
    define void @idle() {
    entry:
      ret void
    }

    trace 1
    pool Node 4
    start @idle
    steps
    t 0 1
    end

Accepted, with the same module and trace: `dgc replay --shapes` begins with
`sound 1`.

    shapes 1
    layout Node 1 ref Node
    global @g ref Node

See also: C6 (a shape that is missing), docs/CERTIFICATES.md
";
