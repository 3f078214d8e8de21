//! What is told of the codes P1 to P3. Made by bench/rules.py from crates/explain/codes: do not edit it.

pub(crate) const P1: &str = "\
P1  A trace has the form of docs/TRACES.md, and names what is in the module.

It is P1 at another version, an unknown name, a pool that is listed twice, a
number that is none, the line of the 65th thread, `late` in `trace 1`, `values`
that is not directly after the line of a thread, or in a module that is not read
with `--forms wide`, and anything after `end`. The place is that of the word, or
of the end of the line.

Why: A trace says how a run begins and who makes its steps. One that is misread
would be another run.

Refused: `dgc replay` prints `error P1 3:7`.

    %Node = type { i64, %Node* }
    define void @idle() {
    entry:
      ret void
    }

    trace 1
    pool Node 4
    start @idel
    steps
    t 0 1
    end

Accepted, with the same module: `dgc replay` begins with `sound 1`.

    trace 1
    pool Node 4
    start @idle
    steps
    t 0 1
    end

See also: docs/TRACES.md
";

pub(crate) const P2: &str = "\
P2  Each step of a trace is one of a thread that has a line before `steps`, or
    of the collector.

Threads are numbered from 0, in the order of their lines.

Why: Nobody would make such a step.

Refused: `dgc replay` prints `error P2 4:3`.

    %Node = type { i64, %Node* }
    define void @idle() {
    entry:
      ret void
    }

    trace 1
    start @idle
    steps
    t 1 1
    end

Accepted, with the same module: `dgc replay` begins with `sound 1`.

    trace 1
    start @idle
    steps
    t 0 1
    end

See also: docs/TRACES.md
";

pub(crate) const P3: &str = "\
P3  A trace has at most 10,000,000 steps.

The place is the count with which there are more. `dgc soak` makes as many as it
is asked for, and ignores the steps of its trace.

Why: A replay takes time by its steps. The safety theorem holds for any number
of them.

Refused: `dgc replay` prints `error P3 4:5`.

    %Node = type { i64, %Node* }
    define void @idle() {
    entry:
      ret void
    }

    trace 1
    start @idle
    steps
    t 0 10000001
    end

Accepted, with the same module: `dgc replay` begins with `sound 1`.

    trace 1
    start @idle
    steps
    t 0 1
    end

See also: Y4 (cells), docs/TRACES.md
";
