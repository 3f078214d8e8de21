//! How far a command is, told on a terminal while it works.
ghost use Rattle.std.specs.Prelude.{◌<◌};

use commands::{Onlooker, SoFar};
use std::io;
use std::io::{Stderr, Write};
use std::time::Duration;

/// Of a command that takes fewer seconds nothing is shown.
const SHORT: u64 = 1;

/// What the line on the terminal says.
#[derive(Clone, Copy)]
enum Text<'a> {
    /// Nothing: the line is empty.
    Nothing,
    /// This command works for that number of seconds.
    Working(&'a str, u64),
    /// A search is so far.
    Searching(SoFar),
    /// The schedule of this seed, which is broken, is made shorter.
    Shortening(u32),
}

/// What is on the terminal.
#[derive(Clone, Copy)]
enum Shown {
    Nothing,
    Line,
}

/// What a terminal shows of a command: one line, which is written anew, and is gone when the command is over.
#[derive(Drop)]
pub struct Progress {
    terminal: Stderr,
    shown: Shown,
}

/// How many milliseconds a search took, at least one.
fn milliseconds(so_far: SoFar) -> u64
    ensures { 0 < result }
{
    match u64::try_from(so_far.elapsed.as_millis()) {
        Ok(elapsed) => elapsed.max(1),
        Err(_) => u64::MAX,
    }
}

/// How many seeds are tried in a second.
fn seeds_a_second(so_far: SoFar) -> u64 {
    u64::from(so_far.tried).saturating_mul(1000) / milliseconds(so_far)
}

/// How many seconds are left at most: those of the line, or those that the other seeds take at this pace.
fn seconds_left(so_far: SoFar) -> u64 {
    let seeds = u64::from(so_far.seeds.saturating_sub(so_far.tried));
    let tried = u64::from(so_far.tried).max(1);
    let left = seeds.saturating_mul(milliseconds(so_far)) / tried / 1000;
    match so_far.seconds {
        Some(seconds) => left.min(u64::from(seconds).saturating_sub(so_far.elapsed.as_secs())),
        None => left,
    }
}

/// Writes how many seeds were tried, how many in a second, and how long the others take, in the place of the line.
fn write_so_far(terminal: &mut Stderr, so_far: SoFar) -> io::Result<()> {
    let SoFar { tried, seeds, .. } = so_far;
    let a_second = seeds_a_second(so_far);
    let left = seconds_left(so_far);
    write!(
        terminal,
        "\r{tried} of {seeds} seeds, {a_second} a second, {left} s left\x1b[K"
    )
}

/// Writes a text in the place of the line.
fn write_text(terminal: &mut Stderr, text: Text<'_>) -> io::Result<()> {
    match text {
        Text::Nothing => write!(terminal, "\r\x1b[K")?,
        Text::Working(command, seconds) => write!(terminal, "\r{command}: {seconds} s\x1b[K")?,
        Text::Searching(so_far) => write_so_far(terminal, so_far)?,
        Text::Shortening(seed) => write!(
            terminal,
            "\rseed {seed} is broken; its schedule is made shorter\x1b[K"
        )?,
    }
    terminal.flush()
}

impl Progress {
    /// Nothing is shown so far.
    pub fn on(terminal: Stderr) -> Progress {
        Progress {
            terminal,
            shown: Shown::Nothing,
        }
    }

    /// Writes a text in the place of the line.
    fn show(&mut self, text: Text<'_>) {
        self.shown = match text {
            Text::Nothing => Shown::Nothing,
            _ => Shown::Line,
        };
        // A line that cannot be written is no fault of the command, which goes on without it.
        let _ = write_text(&mut self.terminal, text);
    }

    /// The command with this name works for so long.
    pub fn works(&mut self, command: &str, elapsed: Duration) {
        let seconds = elapsed.as_secs();
        if seconds >= SHORT {
            self.show(Text::Working(command, seconds));
        }
    }

    /// The command is over: the line is gone.
    pub fn clear(&mut self) {
        match self.shown {
            Shown::Nothing => {}
            Shown::Line => self.show(Text::Nothing),
        }
    }
}

/// Who watches a command while it works.
#[derive(Drop)]
pub enum Watcher {
    Nobody,
    /// A terminal, which shows how far a search is.
    Terminal(Progress),
}

impl Onlooker for Watcher {
    fn goes_on(&mut self, so_far: SoFar) {
        if let Watcher::Terminal(progress) = self
            && so_far.elapsed.as_secs() >= SHORT
        {
            progress.show(Text::Searching(so_far));
        }
    }

    fn shortens(&mut self, seed: u32) {
        if let Watcher::Terminal(progress) = self {
            progress.show(Text::Shortening(seed));
        }
    }

    fn ended(&mut self) {
        if let Watcher::Terminal(progress) = self {
            progress.clear();
        }
    }
}
