//! The lines that blocks have to list: those of which edges show the same are named together.
use crate::claims::put_claim;
use crate::mends::MARGIN;
use crate::told::{Told, put_block};
use certs::{Age, Fact};
use diagnosis::Unlisted;
use ir_ast::{BlockId, ValueId};
use messages::Message;

/// How many blocks are named at most.
const NAMED: usize = 6;

/// What the edges into some blocks show of a value: that it is not null, and that it is fresh. That of which most is shown comes first.
const GROUPS: [(bool, bool); 4] = [(true, true), (true, false), (false, true), (false, false)];

fn is_in(group: (bool, bool), unlisted: &Unlisted) -> bool {
    let (nonnull, fresh) = group;
    nonnull == unlisted.nonnull && fresh == unlisted.fresh
}

/// What a block may list, by what the edges into it show and by what is known where the value is defined.
pub(crate) fn fact_at(nonnull: bool, fresh: bool, fact: &Fact) -> Fact {
    match fact {
        Fact::Reference {
            layout,
            nonnull: known,
            same,
            ..
        } => Fact::Reference {
            layout: *layout,
            nonnull: *known || nonnull,
            age: if fresh { Age::Fresh } else { Age::Held },
            same: *same,
        },
        fact => *fact,
    }
}

fn separator(named: usize) -> &'static str {
    if named == 0 || named > NAMED {
        ""
    } else if named == NAMED {
        " .."
    } else {
        ", "
    }
}

fn put_block_if_named(out: &mut Message, told: &Told, block: BlockId, named: usize) {
    if named < NAMED {
        put_block(out, told.function, block)
    }
}

/// The names of the blocks of a group.
fn put_blocks(out: &mut Message, told: &Told, group: (bool, bool), each: &[Unlisted]) {
    let mut named: usize = 0;
    for unlisted in each {
        if is_in(group, unlisted) {
            out.put(separator(named));
            put_block_if_named(out, told, unlisted.block, named);
            named = named.saturating_add(1);
        }
    }
    out.put("\n")
}

/// A line to add, and the blocks of its group.
fn put_group(
    out: &mut Message,
    told: &Told,
    value: ValueId,
    fact: &Fact,
    group: (bool, bool),
    each: &[Unlisted],
) {
    let (nonnull, fresh) = group;
    out.put("add `");
    put_claim(out, told, value, fact_at(nonnull, fresh, fact));
    out.put("` to the certificate under each of these blocks: ");
    put_blocks(out, told, group, each)
}

/// A line to add for each group that has blocks, and these.
pub(crate) fn put_groups(
    out: &mut Message,
    told: &Told,
    value: ValueId,
    fact: &Fact,
    each: &[Unlisted],
) {
    let mut further = false;
    for group in &GROUPS {
        if each.iter().any(|unlisted| is_in(*group, unlisted)) {
            if further {
                out.put(MARGIN);
                out.put("and ")
            }
            put_group(out, told, value, fact, *group, each);
            further = true;
        }
    }
}
