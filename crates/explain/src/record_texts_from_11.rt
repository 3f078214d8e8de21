//! What is told of the codes H11 to H16. Made by bench/rules.py from crates/explain/codes: do not edit it.

pub(crate) const H11: &str = "\
H11  Each root that is named at the store of a stage is null or held.

Two slots may name one cell, and then it is named twice.

Why: A cell that is not held may be free, and would be marked and kept.

Refused: `dgc conform` prints `no 3 t 0 H11`.

    %Node = type { i64, %Node* }
    @top = global %Node* null
    define void @idle() {
    entry:
      ret void
    }

    trace 1
    pool Node 2
    start @idle
    steps
    end

    1 c posts stage 1 (Sync1 of cycle 1)
    2 t 0 reads the posted stage: 1 (Sync1 of cycle 1)
    3 t 0 stores its stage 1 (Sync1 of cycle 1) with the roots 1

Accepted, with the same module and trace: `dgc conform` prints `conforms 4`.

    1 t 0 claims cell 1: won
    2 c posts stage 1 (Sync1 of cycle 1)
    3 t 0 reads the posted stage: 1 (Sync1 of cycle 1)
    4 t 0 stores its stage 1 (Sync1 of cycle 1) with the roots 1

See also: H7 (what is held), docs/WATCHING.md (\"What is printed\")
";

pub(crate) const H12: &str = "\
H12  A request tries cells of one pool, each at most once, until one is won or
     each was tried.

They may be tried in any order. The globals' cell is never tried.

Why: A cell of another layout has other words. A request that goes round for
ever never answers null.

Refused: `dgc conform` prints `no 3 t 0 H12`.

    %Node = type { i64, %Node* }
    @top = global %Node* null
    define void @idle() {
    entry:
      ret void
    }

    trace 1
    pool Node 2
    start @idle
    steps
    end

    1 t 0 claims cell 1: won
    2 t 0 claims cell 1: lost
    3 t 0 claims cell 1: lost

Accepted, with the same module and trace: `dgc conform` prints `conforms 3`.

    1 t 0 claims cell 1: won
    2 t 0 claims cell 1: lost
    3 t 0 claims cell 2: won

See also: docs/COLLECTOR.md (\"The steps of a thread\")
";

pub(crate) const H13: &str = "\
H13  A pass of the trace looks at each cell in turn, and besides at cells that
     this trace made grey, as often as it did; the sweep looks at each cell
     once, in turn.

Where a look may be one in turn or out of turn, both readings are followed. The
pass's first look is in turn. A pass that met a grey cell is made again.

Why: A cell that the trace leaves out is not scanned, and what it leads to is
freed.

Refused: `dgc conform` prints `no 12 c H13`.

    %Node = type { i64, %Node* }
    @top = global %Node* null
    define void @idle() {
    entry:
      ret void
    }

    trace 1
    pool Node 2
    start @idle
    steps
    end

    1 t 0 stores its stage done with no root
    2 c posts stage 1 (Sync1 of cycle 1)
    3 c reads the stage of thread 0: done
    4 c posts stage 2 (Sync2 of cycle 1)
    5 c reads the stage of thread 0: done
    6 c marks cell 0, which had colour 1
    7 c posts stage 3 (Async of cycle 1)
    8 c reads the stage of thread 0: done
    9 c reads the colour of cell 0: 2
    10 c scans word 0 of cell 0: 0
    11 c blackens cell 0
    12 c reads the colour of cell 2: 0

Accepted, with the same module and trace: `dgc conform` prints `conforms 13`.

    ..
    2 c posts stage 1 (Sync1 of cycle 1)
    3 c reads the stage of thread 0: done
    4 c posts stage 2 (Sync2 of cycle 1)
    5 c reads the stage of thread 0: done
    6 c marks cell 0, which had colour 1
    7 c posts stage 3 (Async of cycle 1)
    8 c reads the stage of thread 0: done
    9 c reads the colour of cell 0: 2
    10 c scans word 0 of cell 0: 0
    11 c blackens cell 0
    12 c reads the colour of cell 1: 0
    13 c reads the colour of cell 2: 0

See also: H16 (scans), docs/COLLECTOR.md (\"The steps of the collector\")
";

pub(crate) const H14: &str = "\
H14  The sweep clears each word of a cell that it found white, in turn, and then
     frees the cell.

White is a colour from 1 to one less than that of a mark of this cycle.

Why: A marked cell may still be used. A free cell whose words were not cleared
is handed out with old references in it.

Refused: `dgc conform` prints `no 20 c H14`.

    %Node = type { i64, %Node* }
    @top = global %Node* null
    define void @idle() {
    entry:
      ret void
    }

    trace 1
    pool Node 2
    start @idle
    steps
    end

    ..
    9 c reads the stage of thread 0: done
    10 c reads the colour of cell 0: 2
    11 c scans word 0 of cell 0: 0
    12 c blackens cell 0
    13 c reads the colour of cell 1: 1
    14 c reads the colour of cell 2: 0
    15 c reads the colour of cell 0: 3
    16 c reads the colour of cell 1: 1
    17 c reads the colour of cell 2: 0
    18 c reads the colour of cell 1: 1
    19 c clears word 0 of cell 1
    20 c frees cell 1

Accepted, with the same module and trace: `dgc conform` prints `conforms 21`.

    ..
    10 c reads the colour of cell 0: 2
    11 c scans word 0 of cell 0: 0
    12 c blackens cell 0
    13 c reads the colour of cell 1: 1
    14 c reads the colour of cell 2: 0
    15 c reads the colour of cell 0: 3
    16 c reads the colour of cell 1: 1
    17 c reads the colour of cell 2: 0
    18 c reads the colour of cell 1: 1
    19 c clears word 0 of cell 1
    20 c clears word 1 of cell 1
    21 c frees cell 1

See also: docs/COLLECTOR.md (\"Stages and colours\")
";

pub(crate) const H15: &str = "\
H15  The collector posts Sync1, Sync2 and Async of each cycle, in turn, each
     after all threads have answered the one before or ended. Async comes after
     the globals are marked, and the next Sync1 after the sweep.

Fewer than 2^60 cycles are begun.

Why: A thread that is a stage behind marks less than the collector counts on.

Refused: `dgc conform` prints `no 2 c H15`.

    %Node = type { i64, %Node* }
    @top = global %Node* null
    define void @idle() {
    entry:
      ret void
    }

    trace 1
    pool Node 2
    start @idle
    steps
    end

    1 c posts stage 1 (Sync1 of cycle 1)
    2 c posts stage 2 (Sync2 of cycle 1)

Accepted, with the same module and trace: `dgc conform` prints `conforms 5`.

    1 c posts stage 1 (Sync1 of cycle 1)
    2 t 0 reads the posted stage: 1 (Sync1 of cycle 1)
    3 t 0 stores its stage 1 (Sync1 of cycle 1) with no root
    4 c reads the stage of thread 0: 1 (Sync1 of cycle 1)
    5 c posts stage 2 (Sync2 of cycle 1)

See also: docs/COLLECTOR.md (\"Stages and colours\")
";

pub(crate) const H16: &str = "\
H16  Each step of the collector is one that follows from where it is after the
     steps before.

It is H16 of the read of a stage, of a mark, of a scan and of blackening. A scan
goes over the reference words in turn, and marks each reference that it finds.

Why: The proof of the collector counts on this order.

Refused: `dgc conform` prints `no 2 c H16`.

    %Node = type { i64, %Node* }
    @top = global %Node* null
    define void @idle() {
    entry:
      ret void
    }

    trace 1
    pool Node 2
    start @idle
    steps
    end

    1 c posts stage 1 (Sync1 of cycle 1)
    2 c marks cell 0, which had colour 1

Accepted, with the same module and trace: `dgc conform` prints `conforms 2`.

    1 c posts stage 1 (Sync1 of cycle 1)
    2 c reads the stage of thread 0: 0 (Async of cycle 0)

See also: H13 (looks), H14 (the sweep), H15 (stages), docs/COLLECTOR.md (\"The
steps of the collector\")
";
