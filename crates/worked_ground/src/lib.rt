//! Worked examples of the public calls of other crates, in tables: what goes in, and what has to come out. They are about
//! matrices, their texts, and the searches of small sets of lines. The expected values are worked out by hand, or come from the
//! literature or from a slow program that follows the definitions.
#![tactic(auto)]

#[cfg(test)]
mod compared;
#[cfg(test)]
mod devices;
#[cfg(test)]
mod generated;
#[cfg(test)]
mod leaves;
#[cfg(test)]
mod matrices;
#[cfg(test)]
mod texts;
#[cfg(test)]
mod violators;
#[cfg(test)]
mod workers;
