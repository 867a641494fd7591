//! The tests of inventories: what is listed and merged, which parts and lines are refused, and how runs end.
#![tactic(auto)]

#[cfg(test)]
mod bad_lines;
#[cfg(test)]
mod calls;
#[cfg(test)]
mod listing;
#[cfg(test)]
mod listing_refusals;
#[cfg(test)]
mod merging;
#[cfg(test)]
mod row_texts;
#[cfg(test)]
mod run_and_status;
#[cfg(test)]
mod runs;
#[cfg(test)]
mod sealed_parts;
#[cfg(test)]
mod texts;
