//! A second thread, which shows on a terminal for how long a command works.
use crate::progress::Progress;
use std::io::Stderr;
use std::sync::Wait;
use std::sync::atomic::{AtomicU64, Ordering};
use std::thread;
use std::thread::Threads;
use std::time::{Clock, Duration, Instant};

/// How many milliseconds there are between two looks at the clock.
const PAUSE: u64 = 200;

/// What the word says while the work goes on.
const WORKING: u32 = 0;

/// What it says once the work is over.
const OVER: u64 = 1;

/// Shows for how long a command works, until the word says that it is over. Where the clock fails nothing is shown.
fn tick<R: Wait + Clock>(rt: &R, terminal: Stderr, command: &str, state: &AtomicU64) {
    let Ok(began) = Instant::now(rt) else {
        return;
    };
    let mut progress = Progress::on(terminal);
    for _ in rt.forever() {
        state.park_timeout(rt, WORKING, Duration::from_millis(PAUSE));
        if state.load(Ordering::SeqCst) == OVER {
            break;
        }
        let Ok(elapsed) = began.elapsed(rt) else {
            break;
        };
        progress.works(command, elapsed);
    }
    progress.clear();
}

/// Does the work of a command, and shows meanwhile for how long. The line is gone when this returns. Where no thread can be made nothing is
/// shown.
pub fn shown_while<R, T, F>(rt: &R, terminal: Stderr, command: &str, work: F) -> T
where
    R: Threads + Wait + Clock + Sync,
    T: Drop,
    F: FnOnce() -> T,
    requires { F.pre work }
{
    let state = AtomicU64::new(u64::from(WORKING));
    let state = &state;
    thread::scope(
        thread::scope_env(),
        rt,
        move |scope| -> T
            requires { F.pre work }
        {
            let _has_thread = scope
                .spawn(move || tick(rt, terminal, command, state))
                .is_ok();
            let done = work();
            state.store(OVER, Ordering::SeqCst);
            state.wake_all();
            done
        },
    )
}
