//! What is told of the codes H1 to H10. Made by bench/rules.py from crates/explain/codes: do not edit it.

pub(crate) const H1: &str = "\
H1  Each entry of a record is a step of a thread of the trace or of the
    collector, or names a root.

Threads are numbered from 0, and the collector is actor 255. docs/RECORDS.md has
the kinds.

Why: Such an entry tells of nothing that the profile knows.

Refused: `dgc conform` prints `no 1 t 1 H1`.

    %Node = type { i64, %Node* }
    @top = global %Node* null
    define void @idle() {
    entry:
      ret void
    }

    trace 1
    pool Node 2
    start @idle
    steps
    end

    1 t 1 reads the posted stage: 0 (Async of cycle 0)

Accepted, with the same module and trace: `dgc conform` prints `conforms 1`.

    1 t 0 reads the posted stage: 0 (Async of cycle 0)

See also: docs/RECORDS.md (\"The format\")
";

pub(crate) const H2: &str = "\
H2  The steps of a thread are those of its calls, each call whole and in its
    order, one call after the other.

A mark, for example, is a step of a barriered store or of an answer to Async. A
thread that has ended makes no further step.

Why: The proof of the collector counts on the order of each call.

Refused: `dgc conform` prints `no 2 t 0 H2`.

    %Node = type { i64, %Node* }
    @top = global %Node* null
    define void @idle() {
    entry:
      ret void
    }

    trace 1
    pool Node 2
    start @idle
    steps
    end

    1 t 0 claims cell 1: won
    2 t 0 marks cell 1

Accepted, with the same module and trace: `dgc conform` prints `conforms 3`.

    1 t 0 claims cell 1: won
    2 t 0 reads the old value in word 0 of cell 0: 0
    3 t 0 stores 1 in word 0 of cell 0, after the barrier

See also: H4 (stores), H5 and H6 (answers), H12 (tries), docs/COLLECTOR.md (\"The
steps of a thread\")
";

pub(crate) const H3: &str = "\
H3  What a step found is what the steps before it left in its word.

The steps of all actors count. A claim is won exactly where the colour was 0.

Why: Either a step was made that is not recorded, or steps were recorded in
another order than they were made in, or the word was changed by something else.

Refused: `dgc conform` prints `no 1 t 0 H3`.

    %Node = type { i64, %Node* }
    @top = global %Node* null
    define void @idle() {
    entry:
      ret void
    }

    trace 1
    pool Node 2
    start @idle
    steps
    end

    1 t 0 reads word 0 of cell 0: 1

Accepted, with the same module and trace: `dgc conform` prints `conforms 1`.

    1 t 0 reads word 0 of cell 0: 0

See also: docs/RECORDS.md (\"What a runtime has to do\")
";

pub(crate) const H4: &str = "\
H4  The store of a barrier comes after the mark of the old value, and at a sync
    stage after that of the new one.

Null is not marked. The store goes to the word whose old value was read, and
stores the value that was marked. The stage is the one that the thread answered
last.

Why: Another thread may hold nothing but the old value, or may have been scanned
before it got the new one. Unmarked they would be freed.

Refused: `dgc conform` prints `no 6 t 0 H4`.

    %Node = type { i64, %Node* }
    @top = global %Node* null
    define void @idle() {
    entry:
      ret void
    }

    trace 1
    pool Node 2
    start @idle
    steps
    end

    1 c posts stage 1 (Sync1 of cycle 1)
    2 t 0 reads the posted stage: 1 (Sync1 of cycle 1)
    3 t 0 stores its stage 1 (Sync1 of cycle 1) with no root
    4 t 0 claims cell 1: won
    5 t 0 reads the old value in word 0 of cell 0: 0
    6 t 0 stores 1 in word 0 of cell 0, after the barrier

Accepted, with the same module and trace: `dgc conform` prints `conforms 7`.

    1 c posts stage 1 (Sync1 of cycle 1)
    2 t 0 reads the posted stage: 1 (Sync1 of cycle 1)
    3 t 0 stores its stage 1 (Sync1 of cycle 1) with no root
    4 t 0 claims cell 1: won
    5 t 0 reads the old value in word 0 of cell 0: 0
    6 t 0 marks cell 1
    7 t 0 stores 1 in word 0 of cell 0, after the barrier

See also: H10 (plain stores), docs/COLLECTOR.md (\"The steps of a thread\")
";

pub(crate) const H5: &str = "\
H5  At an answer to Async each root that is not null was marked, in the order in
    which the roots are named.

Nothing else is marked there.

Why: A root that is not marked is freed in this cycle, if nothing else leads to
its cell.

Refused: `dgc conform` prints `no 13 t 0 H5`.

    %Node = type { i64, %Node* }
    @top = global %Node* null
    define void @idle() {
    entry:
      ret void
    }

    trace 1
    pool Node 2
    start @idle
    steps
    end

    ..
    2 c posts stage 1 (Sync1 of cycle 1)
    3 t 0 reads the posted stage: 1 (Sync1 of cycle 1)
    4 t 0 stores its stage 1 (Sync1 of cycle 1) with the roots 1
    5 c reads the stage of thread 0: 1 (Sync1 of cycle 1)
    6 c posts stage 2 (Sync2 of cycle 1)
    7 t 0 reads the posted stage: 2 (Sync2 of cycle 1)
    8 t 0 stores its stage 2 (Sync2 of cycle 1) with the roots 1
    9 c reads the stage of thread 0: 2 (Sync2 of cycle 1)
    10 c marks cell 0, which had colour 1
    11 c posts stage 3 (Async of cycle 1)
    12 t 0 reads the posted stage: 3 (Async of cycle 1)
    13 t 0 stores its stage 3 (Async of cycle 1) with the roots 1

Accepted, with the same module and trace: `dgc conform` prints `conforms 14`.

    ..
    3 t 0 reads the posted stage: 1 (Sync1 of cycle 1)
    4 t 0 stores its stage 1 (Sync1 of cycle 1) with the roots 1
    5 c reads the stage of thread 0: 1 (Sync1 of cycle 1)
    6 c posts stage 2 (Sync2 of cycle 1)
    7 t 0 reads the posted stage: 2 (Sync2 of cycle 1)
    8 t 0 stores its stage 2 (Sync2 of cycle 1) with the roots 1
    9 c reads the stage of thread 0: 2 (Sync2 of cycle 1)
    10 c marks cell 0, which had colour 1
    11 c posts stage 3 (Async of cycle 1)
    12 t 0 reads the posted stage: 3 (Async of cycle 1)
    13 t 0 marks cell 1
    14 t 0 stores its stage 3 (Async of cycle 1) with the roots 1

See also: H11 (roots that are not held), docs/COLLECTOR.md (\"The steps of a
thread\")
";

pub(crate) const H6: &str = "\
H6  A thread stores the stage that it read as posted, where that is not its own,
    or DONE between two calls.

A late thread stores the stage that it read first, and DONE where another one
was posted meanwhile.

Why: The collector takes a stage that is stored for an answer, and goes on.

Refused: `dgc conform` prints `no 3 t 0 H6`.

    %Node = type { i64, %Node* }
    @top = global %Node* null
    define void @idle() {
    entry:
      ret void
    }

    trace 1
    pool Node 2
    start @idle
    steps
    end

    1 c posts stage 1 (Sync1 of cycle 1)
    2 t 0 reads the posted stage: 1 (Sync1 of cycle 1)
    3 t 0 stores its stage 2 (Sync2 of cycle 1) with no root

Accepted, with the same module and trace: `dgc conform` prints `conforms 3`.

    1 c posts stage 1 (Sync1 of cycle 1)
    2 t 0 reads the posted stage: 1 (Sync1 of cycle 1)
    3 t 0 stores its stage 1 (Sync1 of cycle 1) with no root

See also: H5 (roots), docs/COLLECTOR.md (\"Stages and colours\")
";

pub(crate) const H7: &str = "\
H7  A thread reads, writes and marks cells that it holds. Reads and stores may
    also go to the globals.

A cell is held if the thread read it from a word of references or won it, and
each stage that it stored since then named it as a root.

Why: A cell that no thread holds may be free, or be another one by now.

Refused: `dgc conform` prints `no 1 t 0 H7`.

    %Node = type { i64, %Node* }
    @top = global %Node* null
    define void @idle() {
    entry:
      ret void
    }

    trace 1
    pool Node 2
    start @idle
    steps
    end

    1 t 0 reads word 1 of cell 1: 0

Accepted, with the same module and trace: `dgc conform` prints `conforms 2`.

    1 t 0 claims cell 1: won
    2 t 0 reads word 1 of cell 1: 0

See also: docs/COLLECTOR.md (\"What a thread holds, and what its caller keeps
to\"), docs/WATCHING.md (\"What is printed\")
";

pub(crate) const H8: &str = "\
H8  The word is one of the cell's layout; that of a store with the barrier holds
    references.

Words are numbered from 0, as in the module.

Why: No other word is the cell's, and an integer has no barrier.

Refused: `dgc conform` prints `no 2 t 0 H8`.

    %Node = type { i64, %Node* }
    @top = global %Node* null
    define void @idle() {
    entry:
      ret void
    }

    trace 1
    pool Node 2
    start @idle
    steps
    end

    1 t 0 claims cell 1: won
    2 t 0 reads word 2 of cell 1: 0

Accepted, with the same module and trace: `dgc conform` prints `conforms 2`.

    1 t 0 claims cell 1: won
    2 t 0 reads word 1 of cell 1: 0

See also: docs/RECORDS.md (\"The format\")
";

pub(crate) const H9: &str = "\
H9  What is stored in a word of references is null or a cell of the word's
    layout that the thread holds. An integer fits its word.

A value of a record that is a reference is the number of its cell.

Why: The collector follows what stands in words of references.

Refused: `dgc conform` prints `no 2 t 0 H9`.

    %Node = type { i64, %Node* }
    @top = global %Node* null
    define void @idle() {
    entry:
      ret void
    }

    trace 1
    pool Node 2
    start @idle
    steps
    end

    1 t 0 claims cell 1: won
    2 t 0 stores 2 in word 1 of cell 1, plainly

Accepted, with the same module and trace: `dgc conform` prints `conforms 3`.

    1 t 0 claims cell 1: won
    2 t 0 claims cell 2: won
    3 t 0 stores 2 in word 1 of cell 1, plainly

See also: H7 (what is held), docs/WATCHING.md (\"What is printed\")
";

pub(crate) const H10: &str = "\
H10  A reference is stored without the barrier only into a cell that the thread
     won after the stage that it stored last, and has not stored as a value
     since.

The globals are never fresh. Integers may be stored plainly anywhere.

Why: Another thread or the collector may know the cell, and would lose what
stood there or what is put there.

Refused: `dgc conform` prints `no 2 t 0 H10`.

    %Node = type { i64, %Node* }
    @top = global %Node* null
    define void @idle() {
    entry:
      ret void
    }

    trace 1
    pool Node 2
    start @idle
    steps
    end

    1 t 0 claims cell 1: won
    2 t 0 stores 1 in word 0 of cell 0, plainly

Accepted, with the same module and trace: `dgc conform` prints `conforms 3`.

    1 t 0 claims cell 1: won
    2 t 0 reads the old value in word 0 of cell 0: 0
    3 t 0 stores 1 in word 0 of cell 0, after the barrier

See also: H4 (the barrier), docs/WATCHING.md (\"What is printed\")
";
