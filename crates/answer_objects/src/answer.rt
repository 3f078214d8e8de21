//! The answer of a command. Members are in the order of their names.
use crate::finding::Finding;
use serde::Serialize;

/// The answer of a session at its beginning, or after an edit.
#[derive(Drop, Serialize)]
pub struct Step {
    pub edit: usize,
    #[serde(skip_serializing_if = "Option::is_none")]
    pub fault: Option<Finding>,
    #[serde(skip_serializing_if = "Option::is_none")]
    pub functions: Option<usize>,
    #[serde(skip_serializing_if = "Option::is_none")]
    pub rechecked: Option<u64>,
    #[serde(skip_serializing_if = "Vec::is_empty")]
    pub refusals: Vec<Finding>,
    pub verdict: &'static str,
}

/// The answer of a command.
#[derive(Drop, Serialize)]
pub struct Answer {
    #[serde(skip_serializing_if = "Option::is_none")]
    pub certificate: Option<String>,
    pub command: &'static str,
    #[serde(skip_serializing_if = "Option::is_none")]
    pub edits: Option<String>,
    #[serde(skip_serializing_if = "Option::is_none")]
    pub fault: Option<Finding>,
    pub format: u32,
    #[serde(skip_serializing_if = "Option::is_none")]
    pub functions: Option<usize>,
    #[serde(skip_serializing_if = "Option::is_none")]
    pub module: Option<String>,
    #[serde(skip_serializing_if = "Vec::is_empty")]
    pub printed: Vec<String>,
    #[serde(skip_serializing_if = "Vec::is_empty")]
    pub refusals: Vec<Finding>,
    #[serde(skip_serializing_if = "Option::is_none")]
    pub shapes: Option<String>,
    pub status: u8,
    #[serde(skip_serializing_if = "Vec::is_empty")]
    pub steps: Vec<Step>,
    pub tool: &'static str,
    #[serde(skip_serializing_if = "Vec::is_empty")]
    pub trusts: Vec<String>,
    pub verdict: &'static str,
    pub version: &'static str,
}
