//! The tests of ledgers: which lines are requests, what is asked for, which texts are ledgers, what is replied, and how runs end.
#![tactic(auto)]

#[cfg(test)]
mod answer_and_status;
#[cfg(test)]
mod apply;
#[cfg(test)]
mod apply_requests;
#[cfg(test)]
mod asked;
#[cfg(test)]
mod calls;
#[cfg(test)]
mod devices;
#[cfg(test)]
mod ledger;
#[cfg(test)]
mod openssh;
#[cfg(test)]
mod reading_refusals;
#[cfg(test)]
mod request;
#[cfg(test)]
mod requests_and_replies;
#[cfg(test)]
mod row_texts;
#[cfg(test)]
mod runs;
