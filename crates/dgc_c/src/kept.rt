use recheck::Session;

/// What lies at the address of a session.
#[derive(Drop)]
pub struct Kept {
    pub(crate) session: Session,
}
