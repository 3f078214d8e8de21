//! What a command is to do: its options, and how they are read.
ghost use Rattle.std.specs.Prelude.{◌≡◌, ◌≤◌, IfSome, option_map};
ghost use Rattle.clap.specs.Words.{found_of, rows_of};
ghost use Rattle.command_line.specs.Asked.{are_told, HasWorkers};
ghost use Rattle.command_line.specs.Grammar.{asked_by, asked_of, check_of, check_list_of, draws_of, explain_of, fix_of, hunt_of, lower_of, make_of, recorded_by, recorded_of, refusals_of, replay_of, run_of, search_of, shrink_of, soak_of, steps_between, steps_of, why_of, workers_of, written_between, drawn_values_of, drawn_with, limits_of, watch_of};

use crate::command::Forms;
use crate::given::{flag_given, forms_given, number_given, text_given};
use clap::ArgMatches;

/// How many refusals are told.
#[derive(Clone, Copy)]
pub enum Refusals {
    First,
    /// The first one of each block, at most this many.
    OfBlocks(u32),
}

/// Check a module against a certificate, by `workers` workers.
#[derive(Clone, Copy)]
pub struct CheckOptions {
    pub workers: u32,
    pub refusals: Refusals,
}

/// Whether to say what is refused where no certificate is made.
#[derive(Clone, Copy)]
pub enum Why {
    Wanted,
    NotWanted,
}

/// Make a certificate of a module, which has the shapes of a file where it writes `ptr`.
#[derive(Clone, Copy)]
pub struct MakeOptions {
    pub why: Why,
}

/// Which steps of a replay are told in words, and which are written where a line asks for JSON. Steps are counted from 1.
#[derive(Clone, Copy)]
pub enum StepsTold {
    /// None in words. The last ones are written.
    NotTold,
    /// The last ones, and in words those that matter for the break.
    Last,
    /// Those whose numbers lie between these.
    Between(u32, u32),
    /// None in words. Those whose numbers lie between these are written.
    WrittenBetween(u32, u32),
}

/// Make the steps of a trace of a module.
#[derive(Clone, Copy)]
pub struct ReplayOptions {
    pub steps: StepsTold,
    /// Whether the file that is written is the record of the run. Otherwise it has steps as JSON.
    pub recorded: bool,
}

/// Whether the schedule of a broken seed is made shorter.
#[derive(Clone, Copy)]
pub enum Shrink {
    AsDrawn,
    /// At most this many traces are replayed for it.
    WithTries(u32),
}

/// How a seed draws who makes the next step.
#[derive(Clone, Copy)]
pub enum Draws {
    /// Each actor is as likely as any other one.
    Uniform,
    /// With few switches between actors.
    Biased,
}

/// Which schedules are drawn.
#[derive(Clone, Copy)]
pub struct Search {
    /// The first seed.
    pub first: u32,
    /// How many seeds are tried at most.
    pub seeds: u32,
    /// How many steps each draws.
    pub steps: u32,
    pub draws: Draws,
    /// Whether each seed also draws the numbers that threads get from outside after those of the trace.
    pub drawn_values: bool,
    /// After how many seconds no further seeds are tried.
    pub seconds: Option<u32>,
}

/// From the start of a trace of a module, make the steps that each seed of a search draws.
#[derive(Clone, Copy)]
pub struct SoakOptions {
    pub search: Search,
    pub shrink: Shrink,
}

/// Search for a schedule of a module that breaks its run: `seeds` seeds from the first one on draw `steps` steps each. A schedule that does
/// is made shorter by `tries` tries.
#[derive(Clone, Copy)]
pub struct HuntOptions {
    /// The first seed.
    pub first: u32,
    pub seeds: u32,
    pub steps: u32,
    pub tries: u32,
    /// After how many seconds no further seeds are tried.
    pub seconds: Option<u32>,
}

/// Run the threads of a trace on real threads for at most `steps` steps each, beside at most `turns` steps of the collector.
#[derive(Clone, Copy)]
pub struct RunOptions {
    pub turns: u32,
    pub steps: u32,
}

/// Tell of a code that is printed of a refusal or a fault; without one, list all codes.
#[derive(Clone, Copy)]
pub struct ExplainOptions<'a> {
    pub code: Option<&'a str>,
}

/// Print the text that LLVM gets of a module, which may call a recorder.
#[derive(Clone, Copy)]
pub struct LowerOptions {
    pub recorded: bool,
}

/// What is to be done, with the options of that command alone.
#[derive(Clone, Copy)]
pub enum What<'a> {
    Check(CheckOptions),
    Make(MakeOptions),
    /// Make the safe fixes of a module and its certificate, and check what comes of it.
    Fix,
    /// Check a module against a certificate, and again after each of some edits.
    Recheck,
    Replay(ReplayOptions),
    Soak(SoakOptions),
    Hunt(HuntOptions),
    Run(RunOptions),
    /// Run the threads of a module that need not be checked, and say which one breaks the discipline.
    Watch(RunOptions),
    /// Say whether a recorded run is one of the collector's profile.
    Conform,
    Explain(ExplainOptions<'a>),
    /// Turn a module into opaque text, or a certificate of it into one of the opaque text.
    Migrate,
    Lower(LowerOptions),
}

impl StepsTold {
    /// Whether any are told in words.
    pub fn is_wanted(self) -> bool
        ensures { result ≡ are_told self }
    {
        !matches!(self, StepsTold::NotTold | StepsTold::WrittenBetween(_, _))
    }
}

impl What<'_> {
    /// Whether the file of the command is written where it is empty too: a run without steps on the heap has a record of no bytes, and a
    /// module without a line is one.
    pub fn writes_empty(&self) -> bool {
        match self {
            What::Replay(options) => options.recorded,
            What::Fix => true,
            _ => false,
        }
    }

    /// The name of a command that may take long and does not tell itself how far it is: a search does, and a page of a code takes no time.
    pub fn timed_name(&self) -> Option<&'static str> {
        match self {
            What::Check(_) => Some("check"),
            What::Make(_) => Some("make"),
            What::Fix => Some("fix"),
            What::Recheck => Some("recheck"),
            What::Replay(_) => Some("replay"),
            What::Run(_) => Some("run"),
            What::Watch(_) => Some("watch"),
            What::Conform => Some("conform"),
            What::Migrate => Some("migrate"),
            What::Lower(_) => Some("lower"),
            What::Soak(_) | What::Hunt(_) | What::Explain(_) => None,
        }
    }
}

/// The number of workers that was given, from 1 to 64.
fn workers_given(given: &ArgMatches<'_>) -> Option<u32>
    ensures given { result ≡ workers_of (rows_of (found_of given.now)) }
    ensures few { IfSome result (λ workers. (1 ≤ workers) × (workers ≤ 64)) }
{
    let workers = number_given(given, "workers")?;
    if (1..65).contains(&workers) {
        Some(workers)
    } else {
        None
    }
}

/// How many refusals are told, by the options `all` and `limit`.
fn refusals_given(given: &ArgMatches<'_>) -> Option<Refusals>
    ensures { result ≡ refusals_of (rows_of (found_of given.now)) }
{
    let limit = number_given(given, "limit");
    if flag_given(given, "all") {
        Some(Refusals::OfBlocks(limit.unwrap_or(20)))
    } else if limit.is_some() {
        None
    } else {
        Some(Refusals::First)
    }
}

/// The options of `check`.
fn check_given<'a>(given: &ArgMatches<'a>) -> Option<What<'a>>
    ensures asked { option_map asked_by result ≡ check_of (rows_of (found_of given.now)) }
    ensures workers { IfSome result HasWorkers }
{
    let workers = workers_given(given)?;
    let refusals = refusals_given(given)?;
    Some(What::Check(CheckOptions { workers, refusals }))
}

/// The options of `check-list`: of each pair the first refusal is told.
fn check_list_given<'a>(given: &ArgMatches<'a>) -> Option<What<'a>>
    ensures asked { option_map asked_by result ≡ check_list_of (rows_of (found_of given.now)) }
    ensures workers { IfSome result HasWorkers }
{
    let workers = workers_given(given)?;
    Some(What::Check(CheckOptions {
        workers,
        refusals: Refusals::First,
    }))
}

/// Whether to say what is refused, by the option `why`.
fn why_given(given: &ArgMatches<'_>) -> Why
    ensures { result ≡ why_of (rows_of (found_of given.now)) }
{
    if flag_given(given, "why") {
        Why::Wanted
    } else {
        Why::NotWanted
    }
}

/// The options of `make`.
fn make_given<'a>(given: &ArgMatches<'a>) -> What<'a>
    ensures asked { asked_by result ≡ make_of (rows_of (found_of given.now)) }
    ensures workers { HasWorkers result }
{
    What::Make(MakeOptions {
        why: why_given(given),
    })
}

/// What `fix` is to do, if both files are given that it writes.
fn fix_given<'a>(given: &ArgMatches<'a>) -> Option<What<'a>>
    ensures asked { option_map asked_by result ≡ fix_of (rows_of (found_of given.now)) }
    ensures workers { IfSome result HasWorkers }
{
    if text_given(given, "module").is_some() && text_given(given, "cert").is_some() {
        Some(What::Fix)
    } else {
        None
    }
}

/// The steps between these numbers, if one of them is given; otherwise the last ones.
fn steps_between(first: Option<u32>, last: Option<u32>) -> StepsTold
    ensures { result ≡ steps_between first last }
{
    match (first, last) {
        (None, None) => StepsTold::Last,
        _ => StepsTold::Between(first.unwrap_or(1), last.unwrap_or(u32::MAX)),
    }
}

/// The steps between these numbers are written as JSON and not told in words, if a file for that is given.
fn written_between(
    json_path: Option<&str>,
    first: Option<u32>,
    last: Option<u32>,
) -> Option<StepsTold>
    ensures { result ≡ written_between (option_map (λ path. path.now) json_path.entry) first last }
{
    match json_path {
        Some(_) => Some(StepsTold::WrittenBetween(first.unwrap_or(1), last.unwrap_or(u32::MAX))),
        None => None,
    }
}

/// Which steps of a replay are told, by the options `steps`, `from`, `to` and `json`.
fn steps_given(given: &ArgMatches<'_>) -> Option<StepsTold>
    ensures { result ≡ steps_of (rows_of (found_of given.now)) }
{
    let first = number_given(given, "from");
    let last = number_given(given, "to");
    if flag_given(given, "steps") {
        Some(steps_between(first, last))
    } else if first.is_some() || last.is_some() {
        let json_path = text_given(given, "json");
        written_between(json_path, first, last)
    } else {
        Some(StepsTold::NotTold)
    }
}

/// Whether the record of a run is written, if not both of these files are given.
fn recorded_by(record_path: Option<&str>, json_path: Option<&str>) -> Option<bool>
    ensures { result ≡ recorded_by (option_map (λ path. path.now) record_path.entry) (option_map (λ path. path.now) json_path.entry) }
{
    match (record_path, json_path) {
        (None, _) => Some(false),
        (Some(_), None) => Some(true),
        (Some(_), Some(_)) => None,
    }
}

/// Whether the record of a run is written, by the options `record` and `json`, of which one may be given.
fn recorded_given(given: &ArgMatches<'_>) -> Option<bool>
    ensures { result ≡ recorded_of (rows_of (found_of given.now)) }
{
    recorded_by(text_given(given, "record"), text_given(given, "json"))
}

/// The options of `replay`.
fn replay_given<'a>(given: &ArgMatches<'a>) -> Option<What<'a>>
    ensures asked { option_map asked_by result ≡ replay_of (rows_of (found_of given.now)) }
    ensures workers { IfSome result HasWorkers }
{
    let recorded = recorded_given(given)?;
    let steps = steps_given(given)?;
    Some(What::Replay(ReplayOptions { steps, recorded }))
}

/// How a seed draws, by the option `bias`.
fn draws_given(given: &ArgMatches<'_>) -> Draws
    ensures { result ≡ draws_of (rows_of (found_of given.now)) }
{
    if flag_given(given, "bias") {
        Draws::Biased
    } else {
        Draws::Uniform
    }
}

/// Whether numbers from outside may be drawn by these forms.
fn drawn_with(forms: Option<Forms>) -> Option<bool>
    ensures { result ≡ drawn_with forms }
{
    match forms {
        Some(Forms::Wide) => Some(true),
        _ => None,
    }
}

/// Whether each seed draws numbers from outside, by the option `drawn-values`.
fn drawn_values_given(given: &ArgMatches<'_>) -> Option<bool>
    ensures { result ≡ drawn_values_of (rows_of (found_of given.now)) }
{
    if flag_given(given, "drawn-values") {
        drawn_with(forms_given(given))
    } else {
        Some(false)
    }
}

/// Which schedules are drawn.
fn search_given(given: &ArgMatches<'_>) -> Option<Search>
    ensures { result ≡ search_of (rows_of (found_of given.now)) }
{
    let draws = draws_given(given);
    let seconds = number_given(given, "seconds");
    let seeds = number_given(given, "seeds")?;
    let steps = number_given(given, "steps")?;
    let first = number_given(given, "first")?;
    let drawn_values = drawn_values_given(given)?;
    Some(Search {
        first,
        seeds,
        steps,
        draws,
        drawn_values,
        seconds,
    })
}

/// Whether the schedule of a broken seed is made shorter, by the options `shrink` and `tries`.
fn shrink_given(given: &ArgMatches<'_>) -> Option<Shrink>
    ensures { result ≡ shrink_of (rows_of (found_of given.now)) }
{
    let tries = number_given(given, "tries");
    if flag_given(given, "shrink") {
        Some(Shrink::WithTries(tries.unwrap_or(10_000)))
    } else if tries.is_some() {
        None
    } else {
        Some(Shrink::AsDrawn)
    }
}

/// The options of `soak`.
fn soak_given<'a>(given: &ArgMatches<'a>) -> Option<What<'a>>
    ensures asked { option_map asked_by result ≡ soak_of (rows_of (found_of given.now)) }
    ensures workers { IfSome result HasWorkers }
{
    let search = search_given(given)?;
    let shrink = shrink_given(given)?;
    Some(What::Soak(SoakOptions { search, shrink }))
}

/// The options of `hunt`.
fn hunt_given<'a>(given: &ArgMatches<'a>) -> Option<What<'a>>
    ensures asked { option_map asked_by result ≡ hunt_of (rows_of (found_of given.now)) }
    ensures workers { IfSome result HasWorkers }
{
    let seconds = number_given(given, "seconds");
    let seeds = number_given(given, "seeds")?;
    let steps = number_given(given, "steps")?;
    let first = number_given(given, "first")?;
    let tries = number_given(given, "tries")?;
    Some(What::Hunt(HuntOptions {
        first,
        seeds,
        steps,
        tries,
        seconds,
    }))
}

/// How far threads and collector go.
fn limits_given(given: &ArgMatches<'_>) -> Option<RunOptions>
    ensures { result ≡ limits_of (rows_of (found_of given.now)) }
{
    let turns = number_given(given, "turns")?;
    let steps = number_given(given, "steps")?;
    Some(RunOptions { turns, steps })
}

/// The options of `run`.
fn run_given<'a>(given: &ArgMatches<'a>) -> Option<What<'a>>
    ensures asked { option_map asked_by result ≡ run_of (rows_of (found_of given.now)) }
    ensures workers { IfSome result HasWorkers }
{
    let limits = limits_given(given)?;
    Some(What::Run(limits))
}

/// The options of `watch`.
fn watch_given<'a>(given: &ArgMatches<'a>) -> Option<What<'a>>
    ensures asked { option_map asked_by result ≡ watch_of (rows_of (found_of given.now)) }
    ensures workers { IfSome result HasWorkers }
{
    let limits = limits_given(given)?;
    Some(What::Watch(limits))
}

/// The options of `explain`.
fn explain_given<'a>(given: &ArgMatches<'a>) -> What<'a>
    ensures asked { asked_by result ≡ explain_of (rows_of (found_of given.now)) }
    ensures workers { HasWorkers result }
{
    What::Explain(ExplainOptions {
        code: text_given(given, "CODE"),
    })
}

/// The options of `lower`.
fn lower_given<'a>(given: &ArgMatches<'a>) -> What<'a>
    ensures asked { asked_by result ≡ lower_of (rows_of (found_of given.now)) }
    ensures workers { HasWorkers result }
{
    What::Lower(LowerOptions {
        recorded: flag_given(given, "record"),
    })
}

/// What the command of this name is to do, from what was given to it.
pub(crate) fn what_given<'a>(name: &str, given: &ArgMatches<'a>) -> Option<What<'a>>
    ensures asked { option_map asked_by result ≡ asked_of name.now (rows_of (found_of given.now)) }
    ensures workers { IfSome result HasWorkers }
{
    match name {
        "check" => check_given(given),
        "check-list" => check_list_given(given),
        "make" => Some(make_given(given)),
        "fix" => fix_given(given),
        "recheck" => Some(What::Recheck),
        "replay" => replay_given(given),
        "soak" => soak_given(given),
        "hunt" => hunt_given(given),
        "run" => run_given(given),
        "watch" => watch_given(given),
        "conform" => Some(What::Conform),
        "explain" => Some(explain_given(given)),
        "migrate" => Some(What::Migrate),
        "lower" => Some(lower_given(given)),
        _ => None,
    }
}

/// What is asked of a `check` that lacks something.
fn lack_of_check(given: &ArgMatches<'_>) -> Option<&'static str> {
    if refusals_given(given).is_none() {
        Some("--limit needs --all")
    } else {
        None
    }
}

/// What is asked of a `replay` that asks for nothing.
fn lack_of_replay(given: &ArgMatches<'_>) -> &'static str {
    if recorded_given(given).is_none() {
        "--record may not stand beside --json"
    } else {
        "--from and --to need --steps or --json"
    }
}

/// What is asked of a `soak` that asks for nothing.
fn lack_of_soak(given: &ArgMatches<'_>) -> &'static str {
    if drawn_values_given(given).is_none() {
        "--drawn-values needs --forms wide"
    } else {
        "--tries needs --shrink"
    }
}

/// What the options of a command lack that asks for nothing though `clap` takes its words, if that is known.
pub(crate) fn lack_of(name: &str, given: &ArgMatches<'_>) -> Option<&'static str> {
    match name {
        "check" => lack_of_check(given),
        "fix" => Some("fix needs --module and --cert, the files that it writes"),
        "replay" => Some(lack_of_replay(given)),
        "soak" => Some(lack_of_soak(given)),
        _ => None,
    }
}
