//! The lines, by their kinds. docs/STEPS.md has their members, which are in the order of their names.
use serde::Serialize;

#[derive(Drop, Serialize)]
pub struct RunLine<'a> {
    pub cells: u32,
    pub first: usize,
    pub format: u32,
    pub kind: &'a str,
    pub steps: usize,
}

#[derive(Drop, Serialize)]
pub struct BrokenLine<'a> {
    pub cause: &'a str,
    pub cell: Option<u64>,
    pub kind: &'a str,
    pub path: &'a str,
    pub step: u64,
    pub thread: Option<u32>,
}

#[derive(Drop, Serialize)]
pub struct ThreadLine<'a> {
    pub function: &'a str,
    pub kind: &'a str,
    pub thread: usize,
}

#[derive(Drop, Serialize)]
pub struct PoolLine<'a> {
    pub cells: u32,
    pub first: u32,
    pub kind: &'a str,
    pub layout: &'a str,
    pub references: &'a [usize],
}

#[derive(Drop, Serialize)]
pub struct GlobalLine<'a> {
    pub kind: &'a str,
    pub name: &'a str,
    pub reference: bool,
    pub value: u64,
}

#[derive(Drop, Serialize)]
pub struct TextLine<'a> {
    pub kind: &'a str,
    pub line: usize,
    pub text: &'a str,
}

#[derive(Drop, Serialize)]
pub struct CellLine<'a> {
    pub cell: u64,
    pub colour: &'a str,
    pub kind: &'a str,
    pub words: &'a [u64],
}

#[derive(Drop, Serialize)]
pub struct StageLine<'a> {
    pub event: Option<&'a str>,
    pub kind: &'a str,
    pub stage: Option<u64>,
    pub thread: Option<u32>,
}

/// A root slot of a frame.
#[derive(Drop, Serialize)]
pub struct Root {
    pub cell: u32,
    pub name: String,
}

#[derive(Drop, Serialize)]
pub struct FrameLine<'a> {
    pub after: usize,
    pub frames: usize,
    pub function: &'a str,
    pub kind: &'a str,
    pub roots: &'a [Root],
    pub thread: u32,
}

#[derive(Drop, Serialize)]
pub struct StepLine<'a> {
    pub cell: Option<u64>,
    pub colour: Option<&'a str>,
    pub event: &'a str,
    pub kind: &'a str,
    pub line: Option<usize>,
    pub place: Option<&'a str>,
    pub stage: Option<u64>,
    pub step: usize,
    pub thread: Option<u32>,
    pub told: &'a str,
    pub value: Option<u64>,
    pub word: Option<u32>,
}
