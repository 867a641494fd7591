//! The tests of PuTTY's files, private and public: what no clause says. Values of other programs, and each call with an
//! allocator where memory is ample.
#![tactic(auto)]

#[cfg(test)]
mod answers;
#[cfg(test)]
mod changing_comments;
#[cfg(test)]
mod openssh_refusals;
#[cfg(test)]
mod ppk;
#[cfg(test)]
mod ppk_and_openssh;
#[cfg(test)]
mod ppk_parts;
#[cfg(test)]
mod putty_public;
#[cfg(test)]
mod putty_public_comments;
#[cfg(test)]
mod putty_public_refusals;
#[cfg(test)]
mod reading;
#[cfg(test)]
mod run_and_status;
#[cfg(test)]
mod sealing_and_opening;
#[cfg(test)]
mod sealing_and_opening_refusals;
#[cfg(test)]
mod secret_and_for_putty;
#[cfg(test)]
mod wrappers;
