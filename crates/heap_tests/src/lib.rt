//! Tests of the shared heap, by one caller and by real threads, of the calls of a thread and of the collector. Each is proved to
//! call what it tests as the contracts ask.
#![tactic(auto)]

#[cfg(test)]
mod call_tests;
#[cfg(test)]
mod cycles;
#[cfg(test)]
mod late;
#[cfg(test)]
mod opening;
#[cfg(test)]
mod parts;
#[cfg(test)]
mod starved;
#[cfg(test)]
mod steps;
#[cfg(test)]
mod tests;
#[cfg(test)]
mod two_cells;
