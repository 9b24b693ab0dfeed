//! Requests and the replies to them, over devices in memory: each reply is what a run gives by itself, whatever pieces the devices give and
//! take, and wherever they fail.
#![tactic(auto)]

#[cfg(test)]
mod endings;
#[cfg(test)]
mod given;
#[cfg(test)]
mod reply_tables;
