//! The tests of authorized keys: which entries a text has, how options are spelled, and which lines don't fit or aren't read.
#![tactic(auto)]

#[cfg(test)]
mod authorized_field;
#[cfg(test)]
mod calls;
#[cfg(test)]
mod content;
#[cfg(test)]
mod content_refusals;
#[cfg(test)]
mod entry_texts;
#[cfg(test)]
mod keys;
#[cfg(test)]
mod options;
#[cfg(test)]
mod options_refusals;
