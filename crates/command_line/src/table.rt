//! The commands: of each its name, its files and options, and what the help says of them.
ghost use Rattle.std.specs.Prelude.{◌≡◌, map};
ghost use Rattle.command_line.specs.Grammar.{app_of_row, command_apps};

/// A file or an option of a command: its name, what the help calls its value, and what it says of it.
#[derive(Clone, Copy)]
pub(crate) enum Argument {
    /// A file's path, which has to be given.
    File(&'static str, &'static str),
    /// A word that may be given.
    MayBeGiven(&'static str, &'static str),
    /// A number that has to be given.
    Number(&'static str, &'static str, &'static str),
    /// A number of workers, which may be given; otherwise it is 1.
    Workers(&'static str),
    /// When a refusal is explained, which may be given.
    ExplainWhen(&'static str),
    /// Which forms the text of the module may have, which may be given; otherwise they are those of `core`.
    WhichForms(&'static str),
    /// A number that may be given.
    Optional(&'static str, &'static str, &'static str),
    /// A number that may be given. Before what the help calls the value comes the number that it is otherwise.
    NumberOr(&'static str, &'static str, &'static str, &'static str),
    /// An option without a value, which may be given.
    Flag(&'static str, &'static str),
    /// A file's path, which may be given as an option.
    Path(&'static str, &'static str),
}

/// A command.
#[derive(Clone, Copy)]
pub(crate) struct CommandRow {
    pub(crate) name: &'static str,
    /// What the command does, in one line.
    pub(crate) about: &'static str,
    pub(crate) arguments: &'static [Argument],
    /// What is printed, and the exit statuses.
    pub(crate) after: &'static str,
}

const MODULE: Argument = Argument::File(
    "MODULE",
    "A module: textual LLVM IR with gcroot and the shadow stack (docs/TEXT.md)",
);

const CERT: Argument = Argument::File(
    "CERT",
    "A certificate: what its author claims to hold at each block (docs/CERTIFICATES.md)",
);

const SHAPES: Argument = Argument::Path(
    "shapes",
    "The shapes of a module that writes `ptr`: what its pointers refer to (docs/CERTIFICATES.md)",
);

const CERT_FOR_SHAPES: Argument = Argument::Path(
    "cert",
    "A certificate, whose shapes are taken where --shapes is not given",
);

const EXPLAIN: Argument = Argument::ExplainWhen(
    "Explain a refusal on standard error: always, never, or auto, where that is a terminal [default: DGC_EXPLAIN, or auto]",
);

const FORMS: Argument = Argument::WhichForms(
    "Which forms the module may have: core, or wide, with shifts, division and more (docs/TEXT.md)",
);

const JSON: Argument = Argument::Path(
    "json",
    "The file to which the answer is written as JSON, with what is refused and why (docs/JSON.md)",
);

const SARIF: Argument = Argument::Path(
    "sarif",
    "The file to which the answer is written as SARIF 2.1.0 (docs/JSON.md)",
);

const SECONDS: Argument = Argument::Optional(
    "seconds",
    "N",
    "After how many seconds no further seeds are tried",
);

const STEPS: &str = "How many steps each seed makes";

/// What the help says of the program.
pub(crate) const ABOUT: &str = "\
Checks code that compilers emit against a concurrent mark-and-sweep garbage collector.
Also runs that code beside the collector, one atomic step at a time or on real threads.";

/// The exit statuses of the program.
pub(crate) const STATUSES: &str = "\
In the place of one file of a command `-` stands for the standard input. The last line of a
text that comes there has to be `; end`.

Exit status:
  0  yes or sound, a certificate was made, the threads were run, a record conforms, a code
     was explained, a text was migrated or lowered, or help or the version was asked for
  1  no, no answer, or broken
  2  a text is not read, the module has no layouts, or a thread may not begin
  3  memory was refused
  4  the command line is refused, a file cannot be read, or a write failed";

const CHECK: CommandRow = CommandRow {
    name: "check",
    about: "Checks a module against a certificate",
    arguments: &[
        MODULE,
        CERT,
        Argument::Workers("How many threads check functions, from 1 to 64; the answer is the same"),
        EXPLAIN,
        Argument::Flag("all", "Also print the first refusal of each other block"),
        Argument::Optional(
            "limit",
            "N",
            "With --all: how many refusals are printed at most [default: 20]",
        ),
        JSON,
        SARIF,
        FORMS,
    ],
    after: "\
Prints `yes F`, where F is the number of defined functions. Or prints `no @f %b I Kn`:
the function, the block, the place of the instruction in its block (from 0), and the rule
that it breaks (docs/RULES.md). After K15 come the target block and the line of the
certificate that is not shown. With --all such a line follows for the first refusal of each
other block, in the module's order, and then `refusals N`: how many blocks have one.

Of a text that is not read, one line goes to standard error, as `error L4 23:13` (a line
and a column) or `error C5 @f`.

Exit status:
  0  yes
  1  no
  2  a text is not read, or the module has no layouts
  3  memory was refused
  4  the command line is refused, a file cannot be read, or a write failed",
};

const CHECK_LIST: CommandRow = CommandRow {
    name: "check-list",
    about: "Checks each module of a list against its certificate",
    arguments: &[
        Argument::File(
            "LIST",
            "A list: on each line the path of a module and that of its certificate",
        ),
        Argument::Workers(
            "How many pairs are checked at a time, from 1 to 64; the answer is the same",
        ),
        EXPLAIN,
        FORMS,
    ],
    after: "\
A tab stands between the two paths, or, on a line without a tab, one space. Empty lines and
lines that begin with `;` say nothing. Prints a line for each pair, in the order of the list:
the path of its module, a tab, and what `dgc check` prints of the pair, as `yes 3`, `no @f %b
2 K6` or `error L4 23:13`. What `dgc check` prints in two lines stands in one here, with a
space between. As many pairs as there are workers are checked at a time. Sixteen for each
worker are read, and answered before the next ones are. Of a line that is no pair `error list
3` goes to standard error, with its number, and nothing is checked.

Exit status: the greatest of those that `dgc check` has of the pairs
  0  yes
  1  no
  2  a text is not read, or the module has no layouts
  3  memory was refused
  4  the command line or a line of the list is refused, a file cannot be read, or a write failed",
};

const MAKE: CommandRow = CommandRow {
    name: "make",
    about: "Makes a certificate of a module",
    arguments: &[
        MODULE,
        SHAPES,
        CERT_FOR_SHAPES,
        Argument::Flag(
            "why",
            "Where there is no answer, also prints what is refused",
        ),
        EXPLAIN,
        JSON,
        SARIF,
        FORMS,
    ],
    after: "\
Prints a certificate with which `dgc check` says yes. Or prints `no answer`: none of those
that were tried is accepted. With --why the line that `dgc check` prints for the boldest of
them goes to standard error, as `no @f %b I Kn`.

Of a text that is not read, one line goes to standard error, as `error L4 23:13` (a line
and a column) or `error C6 @g`. A module that writes `ptr` needs its shapes: without --shapes
that line is `error Y5`.

Exit status:
  0  a certificate was made
  1  no answer
  2  the text is not read, or the module has no layouts
  3  memory was refused
  4  the command line is refused, a file cannot be read, or a write failed",
};

const FIX: CommandRow = CommandRow {
    name: "fix",
    about: "Makes the safe fixes of a module and its certificate, and checks what comes of it",
    arguments: &[
        MODULE,
        CERT,
        Argument::Path(
            "module",
            "The file to which the module is written with its fixes; it has to be given",
        ),
        Argument::Path(
            "cert",
            "The file to which the certificate is written with its fixes; it has to be given",
        ),
        EXPLAIN,
        FORMS,
    ],
    after: "\
Safe fixes (docs/FIXES.md) are lines of the certificate as `dgc make` writes them,
llvm.gcwrite in place of a plain store, and a missing declare. One is kept if the check comes
further with it. Prints a line for each, as `fixed module 23:3 llvm.gcwrite in place of the
store`, and then what `dgc check` prints of the two texts that are written.

Where that is yes or no, both files are written whole, also where nothing was fixed. Neither
may be one of the files that are read. Of a text that is not read, one line goes to standard
error, as `error L4 23:13` (a line and a column) or `error C5 @f`.

Exit status: that of `dgc check` of the two texts
  0  yes
  1  no
  2  a text is not read, or the module has no layouts
  3  memory was refused
  4  the command line is refused, a file cannot be read, or a write failed",
};

const RECHECK: CommandRow = CommandRow {
    name: "recheck",
    about: "Checks a module against a certificate, and again after each of some edits",
    arguments: &[
        MODULE,
        CERT,
        Argument::File(
            "EDITS",
            "Edits: functions and sections in the place of others (docs/EDITS.md)",
        ),
        EXPLAIN,
        JSON,
        SARIF,
        FORMS,
    ],
    after: "\
Prints what `dgc check` does. Then puts the texts of each edit in the place of what is there,
and prints a line for it, as `2 rechecked 3 yes 4`: the edit's number from 1, how many
functions it concerns, and what `dgc check` prints of the module and the certificate as
they are then. Of an edit that is refused it prints the code of the fault, as `3 refused C3`.
Such an edit changes nothing.

Of a text that is not read, one line goes to standard error, as `error L4 23:13` (a line
and a column) or `error C5 @f`. The texts within an edit are read when it is its turn. Where
memory is refused, `error memory` is all that is printed.

Exit status:
  0  the last verdict is yes
  1  the last verdict is no
  2  a text is not read, or the module has no layouts
  3  memory was refused
  4  the command line is refused, a file cannot be read, or a write failed",
};

const REPLAY: CommandRow = CommandRow {
    name: "replay",
    about: "Makes the steps of a trace, and says which one breaks the run",
    arguments: &[
        MODULE,
        Argument::File(
            "TRACE",
            "A trace: how a run begins, and who makes its steps (docs/TRACES.md)",
        ),
        SHAPES,
        CERT_FOR_SHAPES,
        Argument::Flag(
            "steps",
            "Also tell the steps: the last 40, and those that matter for the break (docs/STEPS.md)",
        ),
        Argument::Optional(
            "from",
            "N",
            "With --steps or --json: the first step that is told, from 1",
        ),
        Argument::Optional(
            "to",
            "M",
            "With --steps or --json: the last step that is told",
        ),
        Argument::Path(
            "json",
            "The file to which the steps are written as JSON, a line for each: the last 100000, or those that --from and --to say",
        ),
        Argument::Path(
            "record",
            "The file to which the steps on the heap are written, as a record that `dgc conform` reads (docs/RECORDS.md)",
        ),
        EXPLAIN,
        FORMS,
    ],
    after: "\
Each step is one atomic step of a thread or of the collector. Prints the first step after
which the run is broken, who made it, and why, as `broken 32 t 0 touch-blue 1`. Or prints
`sound 35`, a line for each thread, and a line with the counts. docs/TRACES.md has each line.
With --steps come a line for each step that is told, as `32  thread 0  ..`, the life of the
cell that is gone, and the path that still leads to it.

Of a text that is not read, one line goes to standard error, as `error L4 23:13` (a line
and a column) or `error C6 @g`. A module that writes `ptr` needs its shapes: without --shapes
that line is `error Y5`.

Exit status:
  0  sound
  1  broken
  2  a text is not read, the module has no layouts, or a thread may not begin
  3  memory was refused
  4  the command line is refused, a file cannot be read, or a write failed",
};

const SOAK: CommandRow = CommandRow {
    name: "soak",
    about: "Makes S steps for each of N seeds, and says which one breaks the run",
    arguments: &[
        MODULE,
        Argument::File(
            "TRACE",
            "A trace: how each run begins; its steps are ignored (docs/TRACES.md)",
        ),
        SHAPES,
        CERT_FOR_SHAPES,
        Argument::Number(
            "seeds",
            "N",
            "How many seeds; without --first they are 0 to N-1",
        ),
        Argument::Number("steps", "S", STEPS),
        Argument::NumberOr("first", "0", "F", "The first seed"),
        Argument::Path(
            "save",
            "The file to which the broken seed's steps up to its break are written, as a trace",
        ),
        Argument::Flag(
            "bias",
            "Draw schedules with few switches between threads and the collector",
        ),
        Argument::Flag(
            "drawn-values",
            "With --forms wide: draw numbers from outside for each thread too",
        ),
        SECONDS,
        Argument::Flag(
            "shrink",
            "Make the broken seed's steps fewer, by replaying shorter traces",
        ),
        Argument::Optional(
            "tries",
            "N",
            "With --shrink: how many traces are replayed for that at most [default: 10000]",
        ),
        EXPLAIN,
        FORMS,
    ],
    after: "\
Each seed draws who makes the next step: a thread or the collector. Prints `sound N seeds`.
Or prints the least seed whose run is broken, the first step after which it is broken, who
made that step, and why, as `broken seed 103 221 c reach-blue 3`. N, S and F are decimal
numbers from 0 to 4294967295. No seed is above 4294967294. With --save the steps of the
broken seed are written to FILE, and `dgc replay` of that trace breaks at the same step.

With --bias the schedules have few switches between actors, and the lines say so: `sound N
biased seeds`, or `broken biased seed 12 80 c reach-blue 2`. With --seconds no further seeds
are tried once that time is over, and the line says how many were.

With --drawn-values each seed also draws 16 numbers of 64 bits for each thread, which the
thread gets from outside after those of its line `values`. --save writes them in such lines.

With --shrink threads, cells, steps and switches are left out as long as the run breaks by
the same kind of cause. Then `shorter 60 c reach-blue 2` follows, with the last step of the
shorter trace, and `tries 412`: how many traces were replayed. --save writes that trace.

Of a text that is not read, one line goes to standard error, as `error L4 23:13` (a line
and a column) or `error C6 @g`. A module that writes `ptr` needs its shapes: without --shapes
that line is `error Y5`.

Exit status:
  0  sound
  1  broken
  2  a text is not read, the module has no layouts, or a thread may not begin
  3  memory was refused
  4  the command line is refused, a file cannot be read, or a write failed",
};

const HUNT: CommandRow = CommandRow {
    name: "hunt",
    about: "Searches for a short schedule that breaks a run of a module",
    arguments: &[
        MODULE,
        SHAPES,
        Argument::Path(
            "cert",
            "A certificate, which then has the shapes; arguments keep what it promises of parameters",
        ),
        Argument::NumberOr(
            "seeds",
            "10000",
            "N",
            "How many seeds; without --first they are 0 to N-1",
        ),
        Argument::NumberOr("steps", "1000", "S", STEPS),
        Argument::NumberOr("first", "0", "F", "The first seed"),
        Argument::NumberOr(
            "tries",
            "10000",
            "N",
            "How many traces are replayed at most to make a broken one shorter",
        ),
        SECONDS,
        Argument::Path("save", "The file to which a broken trace is written"),
        EXPLAIN,
        FORMS,
    ],
    after: "\
Needs no trace. Each 64 seeds begin alike, as the first of them draws: one to three threads
at functions that take no reference, with integers of their types, and pools of one to four
cells. Each seed draws S steps, many of them with few switches between threads and the
collector. The first schedule that breaks its run is made shorter, as by `dgc soak --shrink`.
Prints `broken 60 c reach-blue 2` and what was tried, as `starts 3 seeds 192 tries 412`: the
last of these seeds is the broken one. `dgc replay` of what --save writes prints that first
line. Or prints `sound 10000 seeds` and `starts 157`: none of these schedules breaks its run.
No seed is above 4294967294, and with any --first a seed draws the same. With --seconds no
further seeds are tried once that time is over, and the line says how many were.

With --cert and --explain always a sound hunt also says, on standard error, by which rule
`dgc check` refuses the module, and whether a schedule can show that.

Of a text that is not read, one line goes to standard error, as `error L4 23:13` (a line
and a column) or `error C6 @g`. A module that writes `ptr` needs its shapes: without --shapes
and --cert that line is `error Y5`.

Exit status:
  0  sound
  1  broken
  2  a text is not read, or the module has no layouts
  3  memory was refused
  4  the command line is refused, a file cannot be read, or a write failed",
};

const RUN: CommandRow = CommandRow {
    name: "run",
    about: "Runs a checked module on real threads, beside the collector",
    arguments: &[
        MODULE,
        CERT,
        Argument::File(
            "TRACE",
            "A trace: how the run begins; its steps are ignored (docs/TRACES.md)",
        ),
        Argument::NumberOr(
            "turns",
            "1000000",
            "N",
            "How many steps the collector makes at most",
        ),
        Argument::NumberOr(
            "steps",
            "1000000",
            "S",
            "After how many of its steps a thread is stopped",
        ),
        EXPLAIN,
        FORMS,
    ],
    after: "\
Checks the module against the certificate. Where that says no, prints what `dgc check` does.
Otherwise each thread of the trace runs on a thread of the machine, and the collector on one
more. They share one heap. Prints a line for each thread, as `t 0 returned`, and then
`collector turns T cycles C`: how many steps the collector made, and how many of its cycles
are over. docs/TRACES.md has each line. N and S are decimal numbers from 0 to 4294967295.

Of a text that is not read, one line goes to standard error, as `error L4 23:13` (a line
and a column) or `error C5 @f`.

Exit status:
  0  the threads were run
  1  no
  2  a text is not read, the module has no layouts, or a thread may not begin
  3  memory was refused
  4  the command line is refused, a file cannot be read, or a write failed",
};

const WATCH: CommandRow = CommandRow {
    name: "watch",
    about: "Runs a module on real threads, and says which one breaks the discipline",
    arguments: &[
        MODULE,
        Argument::File(
            "TRACE",
            "A trace: how the run begins; its steps are ignored (docs/TRACES.md)",
        ),
        SHAPES,
        CERT_FOR_SHAPES,
        Argument::NumberOr(
            "turns",
            "1000000",
            "N",
            "How many steps the collector makes at most",
        ),
        Argument::NumberOr(
            "steps",
            "1000000",
            "S",
            "After how many of its steps a thread is stopped",
        ),
        EXPLAIN,
        FORMS,
    ],
    after: "\
Runs the threads of the trace as `dgc run` does, and needs no certificate: what a thread asks
of the heap is tested first, and done only if that keeps the discipline. Prints what `dgc run`
prints. Or prints the first thread that breaks the discipline, the function, the block, the
place of the instruction in its block (from 0), and why, as `broken t 1 @f %b 3 H10`
(docs/WATCHING.md). N and S are decimal numbers from 0 to 4294967295.

Of a text that is not read, one line goes to standard error, as `error L4 23:13` (a line
and a column) or `error C6 @g`. A module that writes `ptr` needs its shapes: without --shapes
that line is `error Y5`.

Exit status:
  0  the threads were run, and none broke the discipline
  1  broken
  2  a text is not read, the module has no layouts, or a thread may not begin
  3  memory was refused
  4  the command line is refused, a file cannot be read, or a write failed",
};

const CONFORM: CommandRow = CommandRow {
    name: "conform",
    about: "Says which step of a recorded run is none of the collector's profile",
    arguments: &[
        MODULE,
        Argument::File(
            "TRACE",
            "A trace: the pools and the threads; its steps are ignored (docs/TRACES.md)",
        ),
        Argument::File(
            "RECORD",
            "A record: the steps that a runtime made, 16 bytes for each (docs/RECORDS.md)",
        ),
        SHAPES,
        CERT_FOR_SHAPES,
        EXPLAIN,
        FORMS,
    ],
    after: "\
Prints `conforms N`: each of the N steps of the record is one of the profile that
docs/COLLECTOR.md has. Or prints the first step that no run of it makes, who made it, and the
rule that it breaks, as `no 41 t 1 H4` (docs/RULES.md). A record that was cut within its last
step is judged by its whole steps. A record may be a pipe.

Of a text that is not read, one line goes to standard error, as `error L4 23:13` (a line
and a column) or `error C6 @g`. A module that writes `ptr` needs its shapes: without --shapes
that line is `error Y5`.

Exit status:
  0  the record conforms
  1  no
  2  a text is not read, the module has no layouts, or a thread may not begin
  3  memory was refused
  4  the command line is refused, a file cannot be read, or a write failed",
};

const EXPLAIN_CODE: CommandRow = CommandRow {
    name: "explain",
    about: "Tells of a code that is printed of a refusal or a fault",
    arguments: &[Argument::MayBeGiven(
        "CODE",
        "A code, as K6; in lower case too. Without it all codes are listed",
    )],
    after: "\
Prints the rule, why the collector or the check needs it, a refused example and an accepted
one (docs/RULES.md). Or, without a code, prints a line for each code.

Exit status:
  0  the code was explained, or the codes were listed
  4  no code is named so, the command line is refused, or a write failed",
};

const MIGRATE: CommandRow = CommandRow {
    name: "migrate",
    about: "Turns a module with typed pointers, or its certificate, into opaque text",
    arguments: &[
        MODULE,
        Argument::MayBeGiven(
            "CERT",
            "A certificate of the module; without it the module is printed",
        ),
        FORMS,
    ],
    after: "\
Without CERT prints the module with `ptr` for each typed pointer, and with the global for each
bitcast of one. With CERT prints the certificate of that text: what the types said stands in
it as shapes and as `ref L` of parameters and results. Files without a typed pointer are
printed as they are. docs/MIGRATION.md says what is kept, and what may be lost.

Of a text that is not read, one line goes to standard error, as `error L4 23:13` (a line
and a column) or `error C5 @f`. So it does where a word or a root slot is a pointer to no
named struct, as `error C6 Node 1`.

Exit status:
  0  the text is printed
  2  a text is not read, or a pointer has no shape
  3  memory was refused
  4  the command line is refused, a file cannot be read, or a write failed",
};

const LOWER: CommandRow = CommandRow {
    name: "lower",
    about: "Prints the text that LLVM gets of a module, beside a collector",
    arguments: &[
        MODULE,
        Argument::MayBeGiven(
            "CERT",
            "A certificate of the module; without it the module is not checked",
        ),
        SHAPES,
        Argument::Flag(
            "record",
            "Call the recorder at each step on a word and at each other instruction",
        ),
        FORMS,
    ],
    after: "\
With CERT prints the text for LLVM of a module that `dgc check` accepts (docs/LOWERING.md), or
the line of `dgc check` that says why it does not. Without CERT prints the text of any module
that is read, and `nothing was checked` on standard error; a module that writes `ptr` needs
its shapes then. Typed pointers become `ptr`, as `dgc migrate` prints them.

Of a text that is not read, one line goes to standard error, as `error L4 23:13` (a line
and a column) or `error C5 @f`.

Exit status:
  0  the text is printed
  1  no
  2  a text is not read, or the module has no layouts
  3  memory was refused
  4  the command line is refused, a file cannot be read, or a write failed",
};

/// All commands, in the order of the help.
pub(crate) fn commands() -> [&'static CommandRow; 14]
    ensures { map (λ row. app_of_row row.now) result ≡ command_apps }
{
    [
        &CHECK,
        &CHECK_LIST,
        &MAKE,
        &FIX,
        &RECHECK,
        &REPLAY,
        &SOAK,
        &HUNT,
        &RUN,
        &WATCH,
        &CONFORM,
        &EXPLAIN_CODE,
        &MIGRATE,
        &LOWER,
    ]
}
