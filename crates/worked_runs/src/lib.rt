//! Runs of the program over devices in memory, in tables: the arguments, the contents of names before the run, the status,
//! and the printed and written texts. The expected texts are worked out by hand or come from the literature.
#![tactic(auto)]

#[cfg(test)]
mod endings;
#[cfg(test)]
mod failing_devices;
#[cfg(test)]
mod given;
#[cfg(test)]
mod large_runs;
#[cfg(test)]
mod pivoted_runs;
#[cfg(test)]
mod runs;
#[cfg(test)]
mod single_tools;
#[cfg(test)]
mod sums;
#[cfg(test)]
mod trees;
