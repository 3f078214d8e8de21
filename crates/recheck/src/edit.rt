use items::Items;

/// What is to be put in the place of the function of a name, of its section, or of both. The name is without its sign.
#[derive(Drop)]
pub enum Edit {
    Code {
        name: Items<u8>,
        code: Items<u8>,
    },
    Cert {
        name: Items<u8>,
        section: Items<u8>,
    },
    Both {
        name: Items<u8>,
        code: Items<u8>,
        section: Items<u8>,
    },
}
