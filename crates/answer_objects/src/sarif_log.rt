//! The members of a log of SARIF 2.1.0 that are written, in the order of their names.
use serde::Serialize;

/// A log.
#[derive(Drop, Serialize)]
pub struct Log<'a> {
    #[serde(rename = "$schema")]
    pub schema: &'a str,
    pub runs: Vec<Run<'a>>,
    pub version: &'a str,
}

/// A run of the tool.
#[derive(Drop, Serialize)]
#[serde(rename_all = "camelCase")]
pub struct Run<'a> {
    pub artifacts: Vec<Artifact>,
    pub column_kind: &'a str,
    pub invocations: Vec<Invocation>,
    pub results: Vec<Found<'a>>,
    pub tool: Tool<'a>,
}

/// A file.
#[derive(Drop, Serialize)]
pub struct Artifact {
    pub location: ArtifactLocation,
}

/// Where a file is.
#[derive(Drop, Serialize)]
pub struct ArtifactLocation {
    pub uri: String,
}

/// How the tool ended.
#[derive(Drop, Serialize)]
#[serde(rename_all = "camelCase")]
pub struct Invocation {
    pub execution_successful: bool,
    pub exit_code: u8,
}

/// The tool.
#[derive(Drop, Serialize)]
pub struct Tool<'a> {
    pub driver: Driver<'a>,
}

/// The program of the tool, with the rules that its results name.
#[derive(Drop, Serialize)]
pub struct Driver<'a> {
    pub name: &'a str,
    pub rules: Vec<Rule<'a>>,
    pub version: &'a str,
}

/// A code, and the page that `dgc explain` prints of it.
#[derive(Drop, Serialize)]
#[serde(rename_all = "camelCase")]
pub struct Rule<'a> {
    pub help: Words<'a>,
    pub id: &'a str,
    pub short_description: Told,
}

/// A text of another object.
#[derive(Clone, Copy, Serialize)]
pub struct Words<'a> {
    pub text: &'a str,
}

/// A text that was made.
#[derive(Drop, Serialize)]
pub struct Told {
    pub text: String,
}

/// A result.
#[derive(Drop, Serialize)]
#[serde(rename_all = "camelCase")]
pub struct Found<'a> {
    #[serde(skip_serializing_if = "Vec::is_empty")]
    pub fixes: Vec<Mending<'a>>,
    pub level: &'a str,
    pub locations: Vec<Location>,
    pub message: Told,
    #[serde(skip_serializing_if = "Vec::is_empty")]
    pub related_locations: Vec<Related<'a>>,
    pub rule_id: &'a str,
    pub rule_index: usize,
}

/// Where a result is.
#[derive(Drop, Serialize)]
#[serde(rename_all = "camelCase")]
pub struct Location {
    #[serde(skip_serializing_if = "Vec::is_empty")]
    pub logical_locations: Vec<Logical>,
    #[serde(skip_serializing_if = "Option::is_none")]
    pub physical_location: Option<Physical>,
}

/// Where a note is, and what it says.
#[derive(Drop, Serialize)]
#[serde(rename_all = "camelCase")]
pub struct Related<'a> {
    pub id: usize,
    pub message: Words<'a>,
    #[serde(skip_serializing_if = "Option::is_none")]
    pub physical_location: Option<Physical>,
}

/// An instruction by its names.
#[derive(Drop, Serialize)]
#[serde(rename_all = "camelCase")]
pub struct Logical {
    pub fully_qualified_name: String,
}

/// A part of a file.
#[derive(Drop, Serialize)]
#[serde(rename_all = "camelCase")]
pub struct Physical {
    pub artifact_location: ArtifactLocation,
    #[serde(skip_serializing_if = "Option::is_none")]
    pub region: Option<Region>,
}

/// A part of a text. The end is the character after it.
#[derive(Clone, Copy, Serialize)]
#[serde(rename_all = "camelCase")]
pub struct Region {
    pub end_column: usize,
    pub end_line: usize,
    pub start_column: usize,
    pub start_line: usize,
}

/// A fix.
#[derive(Drop, Serialize)]
#[serde(rename_all = "camelCase")]
pub struct Mending<'a> {
    pub artifact_changes: Vec<ArtifactChange<'a>>,
    pub description: Words<'a>,
}

/// A file that a fix changes.
#[derive(Drop, Serialize)]
#[serde(rename_all = "camelCase")]
pub struct ArtifactChange<'a> {
    pub artifact_location: ArtifactLocation,
    pub replacements: Vec<Replacement<'a>>,
}

/// A text in the place of a part of a file.
#[derive(Drop, Serialize)]
#[serde(rename_all = "camelCase")]
pub struct Replacement<'a> {
    pub deleted_region: Region,
    pub inserted_content: Words<'a>,
}
