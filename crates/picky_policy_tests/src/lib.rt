//! The tests of policies: what is offered, who is let in and why not, what is printed, and how runs end.
#![tactic(auto)]

#[cfg(test)]
mod answered_verifier;
#[cfg(test)]
mod calls;
#[cfg(test)]
mod decisions;
#[cfg(test)]
mod demands;
#[cfg(test)]
mod key_line;
#[cfg(test)]
mod login;
#[cfg(test)]
mod offer;
#[cfg(test)]
mod openssh;
#[cfg(test)]
mod row_texts;
#[cfg(test)]
mod rules;
#[cfg(test)]
mod run_and_status;
#[cfg(test)]
mod runs;
#[cfg(test)]
mod terms;
#[cfg(test)]
mod verifiers;
