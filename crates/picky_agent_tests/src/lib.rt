//! The tests of an agent: what it keeps and replies, streams that are cut, that fail or give few bytes a call, how serving ends.
#![tactic(auto)]

#[cfg(test)]
mod added_parts;
#[cfg(test)]
mod calls;
#[cfg(test)]
mod devices;
#[cfg(test)]
mod frame;
#[cfg(test)]
mod keyring;
#[cfg(test)]
mod keys;
#[cfg(test)]
mod question;
#[cfg(test)]
mod serving;
#[cfg(test)]
mod signing;
#[cfg(test)]
mod state_bytes;
#[cfg(test)]
mod talks;
