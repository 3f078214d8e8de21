//! What is told of the codes L1 to L10. Made by bench/rules.py from crates/explain/codes: do not edit it.

pub(crate) const L1: &str = "\
L1  Each byte of a module's text belongs to a token, or parts tokens.

The place is the first byte of what is no token. A text in quotes that does not
end is named at its beginning. In the example a comment begins with `#`. One of
LLVM begins with `;`. A `+` is such a byte without `--forms wide`.

Why: What is checked is the module that the whole text says. Bytes that were
passed over could mean something to another reader.

Refused: `dgc check` prints `error L1 3:3`.

    define i64 @same(i64 %n) {
    entry:
      # the same number
      ret i64 %n
    }

    cert 1
    function @same none
    end

Accepted, with the same certificate: `dgc check` prints `yes 1`.

    define i64 @same(i64 %n) {
    entry:
      ret i64 %n
    }

See also: L7 (forms that are not read), docs/TEXT.md
";

pub(crate) const L2: &str = "\
L2  A module's text ends after a whole item.

The place is the end of the text.

Why: A text that was cut off says another module than the one that was written.

Refused: `dgc check` prints `error L2 4:1`.

    define i64 @same(i64 %n) {
    entry:
      ret i64 %n

    cert 1
    function @same none
    end

Accepted, with the same certificate: `dgc check` prints `yes 1`.

    define i64 @same(i64 %n) {
    entry:
      ret i64 %n
    }

See also: docs/TEXT.md (the forms of items)
";

pub(crate) const L3: &str = "\
L3  Each token goes on with a form of the text.

A type that is mentioned a second time has to be the same one: `load T, T* V`. A
phi comes before the other instructions of its block. A flag stands after the
words that LLVM gives it to: `nneg` after `zext`, and not after `sext`.

Why: A form that is guessed could have another meaning in LLVM, and then other
code would run than was checked.

Refused: `dgc check` prints `error L3 3:19`.

    define i64 @more(i64 %n) {
    entry:
      %v = add i64 %n 2
      ret i64 %v
    }

    cert 1
    function @more none
    end

Accepted, with the same certificate: `dgc check` prints `yes 1`.

    define i64 @more(i64 %n) {
    entry:
      %v = add i64 %n, 2
      ret i64 %v
    }

See also: L7 (forms of LLVM that are not read), docs/TEXT.md
";

pub(crate) const L4: &str = "\
L4  Each type, global, function, block and value has one definition.

The place is that of the second one. A switch names no case twice.

Why: A name with two definitions would not say which of them is meant.

Refused: `dgc check` prints `error L4 4:3`.

    define i64 @twice(i64 %n) {
    entry:
      %v = add i64 %n, %n
      %v = add i64 %v, 1
      ret i64 %v
    }

    cert 1
    function @twice none
    end

Accepted, with the same certificate: `dgc check` prints `yes 1`.

    define i64 @twice(i64 %n) {
    entry:
      %v = add i64 %n, %n
      %w = add i64 %v, 1
      ret i64 %w
    }

See also: L5 (names without a definition)
";

pub(crate) const L5: &str = "\
L5  Each name that is used is defined, and is of the sort that its place wants.

A label is no value, a value is no label, and the entry block is no target of a
branch. The definition may come after the use. It is looked for only in a text
without another fault.

Why: Nothing is known of what is not there. A branch to the entry block would
make its allocas anew.

Refused: `dgc check` prints `error L5 3:12`.

    define void @go() {
    entry:
      br label %our
    out:
      ret void
    }

    cert 1
    function @go none
    block %out
    end

Accepted, with the same certificate: `dgc check` prints `yes 1`.

    define void @go() {
    entry:
      br label %out
    out:
      ret void
    }

See also: L4 (two definitions), K18 (functions that are only declared)
";

pub(crate) const L6: &str = "\
L6  A number fits its type.

One of `iN` is from -2^(N-1) to 2^N - 1, and N is from 1 to 64. With `--forms
wide` one of `float` is a number that 32 bits hold, and one of `double` is
finite where it is written in decimals.

Why: The digits of a larger number would be read as another number.

Refused: `dgc check` prints `error L6 3:19`.

    define i8 @mask(i8 %n) {
    entry:
      %v = and i8 %n, 256
      ret i8 %v
    }

    cert 1
    function @mask none
    end

Accepted, with the same certificate: `dgc check` prints `yes 1`.

    define i8 @mask(i8 %n) {
    entry:
      %v = and i8 %n, 255
      ret i8 %v
    }

See also: docs/TEXT.md (constants)
";

pub(crate) const L7: &str = "\
L7  Only the forms of docs/TEXT.md are read.

The word at which the form begins is printed after the place. docs/TEXT.md lists
these forms. In the example a shift by a constant is written as a product. `dgc
lower` and `dgc migrate` refuse with L7 also what `--forms wide` reads and does
not keep, as data. `dgc lower` prints a function's name alone after L7: that of
one that is only declared and gives a pointer, or else of one that has a buffer,
as `alloca [64 x i8]`.

Why: The rules and the safety theorem speak of the forms that are read. Of
another one nothing is proved.

Refused: `dgc check` prints `error L7 3:8 shl`.

    define i64 @eight(i64 %n) {
    entry:
      %v = shl i64 %n, 3
      ret i64 %v
    }

    cert 1
    function @eight none
    end

Accepted, with the same certificate: `dgc check` prints `yes 1`.

    define i64 @eight(i64 %n) {
    entry:
      %v = mul i64 %n, 8
      ret i64 %v
    }

See also: L3 (other tokens), docs/TEXT.md (\"What is left out\"), docs/LOWERING.md
";

pub(crate) const L8: &str = "\
L8  A module's text is within the limits of docs/TEXT.md.

They are on its size, its functions and globals, the blocks and values of a
function, and the levels of a type, of which there are 64. The place is that of
the first thing past a limit.

Why: Reading and checking take memory and time by these sizes.

Refused: `dgc check` prints `error L8 3:34`.

    declare void @deep(i64
      ********************************
      ********************************)

    cert 1

Accepted, with the same certificate: `dgc check` prints `yes 0`.

    declare void @deep(i64
      ********************************
      *******************************)

See also: Y2 (the words of a struct), docs/TEXT.md (\"Limits\")
";

pub(crate) const L9: &str = "\
L9  A value or a block that is written by a number has the next number of its
    function.

Parameters, blocks and values without names share one counter, from 0. An entry
block without a label takes the one after the parameters.

Why: LLVM counts so. A text with other numbers is none that it wrote, or a line
of it is missing.

Refused: `dgc check` prints `error L9 2:3`.

    define i64 @sum(i64 %0, i64 %1) {
      %2 = add i64 %0, %1
      ret i64 %2
    }

    cert 1
    function @sum none
    end

Accepted, with the same certificate: `dgc check` prints `yes 1`.

    define i64 @sum(i64 %0, i64 %1) {
      %3 = add i64 %0, %1
      ret i64 %3
    }

See also: docs/TEXT.md (\"Values and blocks without names\")
";

pub(crate) const L10: &str = "\
L10  A module's text has `ptr` for all of its pointers, or for none.

The place is the first token of the first pointer type of the second kind. The
declarations of the runtime's functions count too: with `ptr` they have `ptr`
for every pointer.

Why: What a `ptr` refers to stands in the certificate, and what a `T*` refers to
stands in the text itself. In a text with both, two places would have to be
looked at.

Refused: `dgc check` prints `error L10 2:9`.

    %Node = type { i64, %Node* }
    declare ptr @dg_alloc(i32)
    define void @idle() {
    entry:
      ret void
    }

    cert 1
    function @idle none
    end

Accepted, with the same certificate: `dgc check` prints `yes 1`.

    %Node = type { i64, %Node* }
    declare i8* @dg_alloc(i32)
    define void @idle() {
    entry:
      ret void
    }

See also: Y5 and C6 (what a `ptr` refers to), docs/TEXT.md
";
