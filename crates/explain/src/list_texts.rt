//! The list of all codes. Made by bench/rules.py from crates/explain/codes: do not edit it.

/// The list of all codes, one a line.
pub const LIST: &str = "\
The codes that dgc prints of refusals and faults. `dgc explain K6` tells of one.

Rules of the check:
  K1   an operand is not available
  K2   an operand has another type than the one that is written
  K3   a stale reference is used
  K4   the base of a place may be null
  K5   a word is outside the layout, or an index is not known to be small
  K6   a reference is stored without the barrier outside slots and fresh cells
  K7   gcread or gcwrite names another object than the address's
  K8   an alloca holds no number, and is no root
  K9   a gcroot is past the head, a second one, on no slot, or has metadata
  K10  a slot is used as a value
  K11  an alloca is outside the entry block
  K12  references are in a function without `gc \"shadow-stack\"`
  K13  an argument is not known to keep what is promised of the parameter
  K14  a `ret` is not known to keep what is promised of the result
  K15  an edge into a block does not imply a claim of its certificate
  K16  the entries of a phi are not those of the block's predecessors
  K17  a function that is marked `none` may reach a safepoint
  K18  a callee is unknown, or has other parameters or arguments
  K19  a bitcast leads to another layout
  K20  a thread starts at a function that takes a reference

Faults of a module's text:
  L1   a bad byte, or a token that does not end
  L2   the text ends too early
  L3   a token with which no form goes on
  L4   defined twice
  L5   a name that is not defined, or of another sort
  L6   a number out of range
  L7   a form of LLVM that is not read; its word is printed
  L8   past a limit of the text
  L9   a number in place of a name that is not the next one
  L10  a text has pointers of both kinds, `ptr` and `T*`

Faults of a certificate's text:
  C1   the form of the text, or a fact that does not fit the value's type
  C2   another version of the format
  C3   a name that is not there, or a slot that is no root slot
  C4   listed twice
  C5   a function or a block without a section
  C6   a word, a global or a root slot of type `ptr` without its layout

Faults of layouts and pools:
  Y1   a struct holds itself by value
  Y2   a struct has more than 64 words
  Y3   a word of a struct points to no named struct
  Y4   a trace's cells are past the limit
  Y5   a module with `ptr` without shapes

Faults of a trace's text:
  P1   a word of a trace with which no form goes on
  P2   a step of a thread that does not begin
  P3   more steps than the limit

Rules of recorded runs:
  H1   no such actor, or no step of it is of this kind
  H2   the thread's call does not go on by such a step
  H3   the word held another value than is recorded
  H4   a store after the barrier comes too early, or is not that of its barrier
  H5   the roots of an answer are not those that were marked
  H6   a stage is stored that is not the one to store
  H7   a cell is used that the thread does not hold
  H8   the cell has no such word, or it holds no references
  H9   a value is stored that may not stand in the word
  H10  a reference is stored plainly into a cell that is not fresh
  H11  a root is named that the thread does not hold
  H12  a cell is tried that may not be tried now
  H13  a look at a colour that no place of the collector allows
  H14  a cell is cleared or freed that may not be
  H15  a stage is posted that may not be posted now
  H16  a step of the collector out of its order
";
