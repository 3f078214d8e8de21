//! A text that is being written.
use crate::look::{Ink, Look, colour_of};
use crate::parts::{Fix, Kept, Part, Parts};
use ir_ast::{Module, Names, SymbolId, ValueId};
use name_text::Blank;
use pools::LayoutId;
use std::alloc::{AllocError, Global};

/// A text that is being written. Where memory is refused it ends there: nothing more is written, and `finish` says so.
#[derive(Drop)]
pub struct Message {
    alloc: Global,
    bytes: Vec<u8>,
    /// Of a message in parts, where they begin, and the changes that it offers.
    kept: Option<Kept>,
    written: Result<(), AllocError>,
}

impl Message {
    /// Nothing is written yet.
    pub fn new(alloc: Global) -> Message {
        Message::after(alloc, Vec::new(alloc))
    }

    /// These bytes are written so far.
    pub fn after(alloc: Global, bytes: Vec<u8>) -> Message {
        Message {
            alloc,
            bytes,
            kept: None,
            written: Ok(()),
        }
    }

    /// Nothing is written yet. Of what will be, the parts are kept.
    pub fn in_parts(alloc: Global) -> Message {
        Message {
            alloc,
            bytes: Vec::new(alloc),
            kept: Some(Kept::new(alloc)),
            written: Ok(()),
        }
    }

    /// What is written from here on is this part.
    pub fn begin_part(&mut self, part: Part) {
        let start = self.bytes.len();
        if let (Some(kept), Ok(())) = (&mut self.kept, &self.written) {
            self.written = kept.begin(part, start);
        }
    }

    /// Whether changes are kept that mend what is refused.
    pub fn keeps_fixes(&self) -> bool {
        self.kept.is_some()
    }

    /// Changes that mend what is refused. A message that is not in parts does not keep them.
    pub fn add_fix(&mut self, fix: Fix) {
        match &mut self.kept {
            Some(kept) => {
                if self.written.is_ok() {
                    self.written = kept.add(fix);
                } else {
                    drop(fix)
                }
            }
            None => drop(fix),
        }
    }

    pub fn put_bytes(&mut self, bytes: &[u8]) {
        if self.written.is_ok() {
            self.written = self.bytes.extend_from_slice(bytes);
        }
    }

    pub fn put_byte(&mut self, byte: u8) {
        self.put_bytes(&[byte]);
    }

    pub fn put(&mut self, text: &str) {
        self.put_bytes(text.as_bytes());
    }

    /// A decimal number.
    pub fn put_number(&mut self, number: u64) {
        if self.written.is_ok() {
            self.written = name_text::put_number(self.alloc, &mut self.bytes, number);
        }
    }

    /// A name, in quotes where it is not plain.
    pub fn put_name(&mut self, name: &[u8], blank: Blank) {
        if self.written.is_ok() {
            self.written = name_text::put_name(&mut self.bytes, name, blank);
        }
    }

    /// The name of a value or a block: `%x`.
    pub fn put_local(&mut self, locals: &Names, value: ValueId, blank: Blank) {
        if self.written.is_ok() {
            self.written = name_text::put_local(&mut self.bytes, locals, value, blank);
        }
    }

    /// The name of a function or a global: `@f`.
    pub fn put_global(&mut self, of_module: &Module, symbol: SymbolId, blank: Blank) {
        if self.written.is_ok() {
            self.written = name_text::put_global(&mut self.bytes, of_module, symbol, blank);
        }
    }

    /// The name of a layout, without a sign before it.
    pub fn put_layout(&mut self, of_module: &Module, layout: LayoutId, blank: Blank) {
        if self.written.is_ok() {
            self.written = name_text::put_layout(&mut self.bytes, of_module, layout, blank);
        }
    }

    /// Words from here on are of this kind.
    pub fn begin_ink(&mut self, look: Look, ink: Ink) {
        match look {
            Look::Plain => {}
            Look::Coloured => self.put(colour_of(ink)),
        }
    }

    /// Words from here on are as they were.
    pub fn end_ink(&mut self, look: Look) {
        match look {
            Look::Plain => {}
            Look::Coloured => self.put("\x1b[0m"),
        }
    }

    /// Words of this kind.
    pub fn put_inked(&mut self, look: Look, ink: Ink, text: &str) {
        self.begin_ink(look, ink);
        self.put(text);
        self.end_ink(look);
    }

    /// What another one has.
    pub fn put_message(&mut self, other: &Message) {
        self.put_bytes(other.bytes.as_slice());
        if other.written.is_err() {
            self.refuse();
        }
    }

    /// How many bytes are written.
    pub fn len(&self) -> usize {
        self.bytes.len()
    }

    /// Begins anew. Where memory was refused, nothing is written from then on.
    pub fn clear(&mut self) {
        self.bytes.clear();
        if let Some(kept) = &mut self.kept {
            kept.clear();
        }
    }

    /// Memory was refused for what would come next.
    pub fn refuse(&mut self) {
        self.written = Err(AllocError);
    }

    /// The whole text, if memory was not refused.
    pub fn finish(self) -> Result<Vec<u8>, AllocError> {
        let Message {
            bytes,
            kept,
            written,
            ..
        } = self;
        drop(kept);
        match written {
            Ok(()) => Ok(bytes),
            Err(refused) => {
                drop(bytes);
                Err(refused)
            }
        }
    }

    /// The whole text in its parts, if memory was not refused. Of a message that is not in parts there are none.
    pub fn finish_parts(self) -> Result<Parts, AllocError> {
        let Message {
            alloc,
            bytes,
            kept,
            written,
        } = self;
        let kept = match kept {
            Some(kept) => kept,
            None => Kept::new(alloc),
        };
        let parts = kept.of_text(bytes);
        match written {
            Ok(()) => Ok(parts),
            Err(refused) => {
                drop(parts);
                Err(refused)
            }
        }
    }
}
