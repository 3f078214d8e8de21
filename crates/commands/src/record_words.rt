//! The entries of a record in words.
use colours::Turn;
use messages::Message;
use record_text::{COLLECTOR, Entry, Recorded, ThreadStep, read_entry};

/// A stage: its number, and which one of its cycle it is.
fn put_stage(out: &mut Message, stage: u64) {
    if stage == u64::MAX {
        return out.put("done");
    }
    out.put_number(stage);
    out.put(match stage % 3 {
        0 => " (Async of cycle ",
        1 => " (Sync1 of cycle ",
        _ => " (Sync2 of cycle ",
    });
    out.put_number((stage / 3).wrapping_add(u64::from(stage % 3 != 0)));
    out.put(")")
}

/// What is done, and of which word.
fn put_of_word(out: &mut Message, done: &str, cell: u32, word: u32) {
    out.put(done);
    out.put_number(u64::from(word));
    out.put(" of cell ");
    out.put_number(u64::from(cell))
}

/// What is done, to which cell.
fn put_of_cell(out: &mut Message, done: &str, cell: u32) {
    out.put(done);
    out.put_number(u64::from(cell))
}

/// What is read, and what was found.
fn put_read(out: &mut Message, done: &str, cell: u32, word: u32, value: u64) {
    put_of_word(out, done, cell, word);
    out.put(": ");
    out.put_number(value)
}

/// What is stored, where.
fn put_store(out: &mut Message, cell: u32, word: u32, value: u64) {
    out.put("stores ");
    out.put_number(value);
    put_of_word(out, " in word ", cell, word)
}

/// What is done with a stage.
fn put_of_stage(out: &mut Message, done: &str, stage: u64) {
    out.put(done);
    put_stage(out, stage)
}

/// A step of a thread.
fn put_step(out: &mut Message, step: ThreadStep) {
    match step {
        ThreadStep::ReadWord(cell, word, value) => put_read(out, "reads word ", cell, word, value),
        ThreadStep::ReadOldValue(cell, word, value) => {
            put_read(out, "reads the old value in word ", cell, word, value)
        }
        ThreadStep::Mark(cell) => put_of_cell(out, "marks cell ", cell),
        ThreadStep::StoreAfterBarrier(cell, word, value) => {
            put_store(out, cell, word, value);
            out.put(", after the barrier")
        }
        ThreadStep::StorePlain(cell, word, value) => {
            put_store(out, cell, word, value);
            out.put(", plainly")
        }
        ThreadStep::Claim(cell, true) => put_of_cell(out, "wins cell ", cell),
        ThreadStep::Claim(cell, false) => put_of_cell(out, "tries in vain to win cell ", cell),
        ThreadStep::ReadPosted(stage) => put_of_stage(out, "reads the posted stage: ", stage),
        ThreadStep::StoreStage(stage) => put_of_stage(out, "stores its stage ", stage),
        ThreadStep::ReadPostedFirst(stage) => {
            put_of_stage(out, "reads the posted stage first: ", stage)
        }
        ThreadStep::EnterStage(stage) => put_of_stage(out, "enters at stage ", stage),
        ThreadStep::ReadPostedAgain(stage) => {
            put_of_stage(out, "reads the posted stage again: ", stage)
        }
    }
}

/// A step of the collector that found a colour.
fn put_colour(out: &mut Message, done: &str, cell: u32, colour: u64) {
    put_of_cell(out, done, cell);
    out.put(", which has colour ");
    out.put_number(colour)
}

/// A step of the collector.
fn put_turn(out: &mut Message, turn: Turn) {
    match turn {
        Turn::PostStage(stage) => put_of_stage(out, "posts stage ", stage),
        Turn::ReadStage(thread, stage) => {
            out.put("reads the stage of thread ");
            out.put_number(thread as u64);
            put_of_stage(out, ": ", stage)
        }
        Turn::MarkFound(cell, colour) => put_colour(out, "marks cell ", cell, colour),
        Turn::ReadColour(cell, colour) => put_colour(out, "looks at cell ", cell, colour),
        Turn::ScanWord(cell, word, value) => put_read(out, "scans word ", cell, word, value),
        Turn::Blacken(cell) => put_of_cell(out, "blackens cell ", cell),
        Turn::ClearWord(cell, word) => put_of_word(out, "clears word ", cell, word),
        Turn::Free(cell) => put_of_cell(out, "frees cell ", cell),
    }
}

/// An actor, as the line of a record has it.
fn put_actor(out: &mut Message, actor: u8) {
    if actor == COLLECTOR {
        return out.put("c");
    }
    out.put("t ");
    out.put_number(u64::from(actor))
}

/// Who does what by an entry.
pub(crate) fn put_entry(out: &mut Message, entry: Entry) {
    put_actor(out, entry.actor);
    out.put(" ");
    match read_entry(entry) {
        Recorded::Thread(_, step) => put_step(out, step),
        Recorded::Root(_, cell) => put_of_cell(out, "names the root ", cell),
        Recorded::Collector(turn) => put_turn(out, turn),
        Recorded::Unknown => {
            out.put("makes no step: none is of kind ");
            out.put_number(u64::from(entry.kind))
        }
    }
}
