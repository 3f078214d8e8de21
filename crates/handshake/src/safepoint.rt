ghost use Rattle.std.specs.Prelude.{◌≡◌, ◌<◌, ◌^◌, ℕ, List, [], ◌∷◌, ◌++◌, IfSome, IfNone};
ghost use Rattle.colours.specs.Steps.{Mark, StoreStage};
ghost use Rattle.colours.specs.Calls.{Polling, Steps, asked, left, after, marks_of_all};
ghost use Rattle.handshake.specs.View.{todo_at};

use colours::{Ask, Place, is_async, mark_at};
use std::marker::Model;

/// A thread's safepoint, one operation at a time. Its roots are lent, the oldest frame's first.
#[derive(Drop)]
pub struct Safepoint<'a> {
    thread: usize,
    stage: u64,
    roots: &'a [u32],
    next: Next<'a>,
}

/// The next operation.
#[derive(Clone, Copy)]
enum Next<'a> {
    ReadPosted,
    /// The posted stage, a root that isn't null, and the roots after it.
    Mark(u64, u32, &'a [u32]),
    StoreStage(u64),
    Nothing,
}

impl<'a> Model for Safepoint<'a> {
    ghost use Rattle.std.specs.Prelude.{ℕ, ◌<◌, ◌^◌};
    ghost use Rattle.colours.specs.Calls.{Call};

    ghost Value = { Call };

    ghost use Rattle.handshake.specs.View.{view_of};

    ghost view = { view_of };

    ghost invariant = { λ point. point.stage < 2 ^ 62 };
}

/// The safepoint of a thread at this stage.
pub fn answer_safepoint(thread: usize, stage: u64, roots: &[u32]) -> Safepoint<'_>
    requires { stage < 2 ^ 62 }
    ensures { result ≡ record { thread = thread; stage = stage; todo = Polling roots.now } }
{
    Safepoint {
        thread,
        stage,
        roots,
        next: Next::ReadPosted,
    }
}

impl<'a> Safepoint<'a> {
    /// The next operation; None once the safepoint is over.
    pub fn ask(&self) -> Option<Ask>
        ensures { result ≡ asked self.now.thread self.now.stage self.now.todo }
    {
        match self.next {
            Next::ReadPosted => Some(Ask::Load(Place::Posted)),
            Next::Mark(_, root, _) => Some(Ask::FetchMax(Place::Colour(root), mark_at(self.stage))),
            Next::StoreStage(posted) => Some(Ask::Store(Place::Stage(self.thread), posted)),
            Next::Nothing => None,
        }
    }

    /// Takes what the word of the operation was before it.
    pub fn took(&mut self, found: u64)
        ensures { self.new ≡ after self.old found }
    {
        self.next = next_of(self.next, self.stage, self.roots, found);
    }
}

/// What comes after an operation that found this word.
fn next_of<'a>(next: Next<'a>, stage: u64, roots: &'a [u32], found: u64) -> Next<'a>
    ensures { todo_at result roots.now ≡ left stage (todo_at next.entry roots.now) found }
{
    match next {
        Next::ReadPosted if found == stage => Next::Nothing,
        Next::ReadPosted if is_async(found) => marking(found, roots),
        Next::ReadPosted => Next::StoreStage(found),
        Next::Mark(posted, _, rest) => marking(posted, rest),
        Next::StoreStage(_) | Next::Nothing => Next::Nothing,
    }
}

/// The mark of the first of these roots that isn't null, or the store of the stage.
fn marking(posted: u64, roots: &[u32]) -> Next<'_>
    ensures { (named : List ℕ) → todo_at result named ≡ Steps (marks_of_all roots.now ++ StoreStage posted named ∷ []) }
{
    match first_root(roots) {
        Some((root, rest)) => Next::Mark(posted, root, rest),
        None => Next::StoreStage(posted),
    }
}

/// The first root that isn't null, and those after it.
fn first_root(roots: &[u32]) -> Option<(u32, &[u32])>
    ensures some { IfSome result (λ found. marks_of_all roots.now ≡ Mark found.0 ∷ marks_of_all found.1.now) }
    ensures none { IfNone result (marks_of_all roots.now ≡ []) }
{
    let mut rest = roots;
    while let [root, more @ ..] = rest {
        if *root != 0 {
            return Some((*root, more));
        }
        rest = more;
    }
    None
}
