//! Who sees whether the files of a command are accepted, and why not.
use crate::files::Unread;
use ir_ast::Module;
use layout::LayoutFault;
use module_check::{Accepted, Reason, Unseen, Witness};
use recheck::{Edit, EditFault, Session};

/// Sees why the files of a command are not accepted, while what was read of them stands.
pub trait Findings: Witness {
    /// The files are not read.
    fn not_read(&mut self, unread: &Unread<'_>);

    /// The module has no layouts.
    fn no_layouts(&mut self, fault: LayoutFault);

    /// The module is accepted.
    fn accepted(&mut self, of_module: &Module);

    /// A session begins.
    fn begun(&mut self, session: &Session);

    /// The edit with this number was made.
    fn edit_made(&mut self, session: &Session, number: usize);

    /// The edit with this number is refused, and the session is as it was before it.
    fn edit_refused(&mut self, session: &Session, number: usize, edit: &Edit, fault: &EditFault);

    /// All edits of a session were made.
    fn edited(&mut self, session: &Session);
}

impl Findings for Unseen {
    fn not_read(&mut self, _unread: &Unread<'_>) {}

    fn no_layouts(&mut self, _fault: LayoutFault) {}

    fn accepted(&mut self, _of_module: &Module) {}

    fn begun(&mut self, _session: &Session) {}

    fn edit_made(&mut self, _session: &Session, _number: usize) {}

    fn edit_refused(
        &mut self,
        _session: &Session,
        _number: usize,
        _edit: &Edit,
        _fault: &EditFault,
    ) {}

    fn edited(&mut self, _session: &Session) {}
}

/// Shows the module that is accepted.
pub fn show_accepted(seen: &mut impl Findings, accepted: &Accepted) {
    seen.accepted(accepted.program().module());
}

/// Shows why a module has no layouts, if that is the verdict.
pub fn show_layouts(seen: &mut impl Findings, verdict: Reason) {
    if let Reason::Layout(fault) = verdict {
        seen.no_layouts(fault);
    }
}
