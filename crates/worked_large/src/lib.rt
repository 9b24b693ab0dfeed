//! Tests of verdicts on large matrices, and of evidence of a yes.
#![tactic(auto)]

#[cfg(test)]
mod evidence;
#[cfg(test)]
mod verdicts;
