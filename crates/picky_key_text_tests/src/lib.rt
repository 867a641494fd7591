//! The tests of key texts: what they mean and show, what each target writes of them, what another comment makes of them, why they are
//! refused, and how refusals are printed.
#![tactic(auto)]

#[cfg(test)]
mod commenting;
#[cfg(test)]
mod form_and_reading;
#[cfg(test)]
mod line_refusals;
#[cfg(test)]
mod meaning;
#[cfg(test)]
mod ppk_fields;
#[cfg(test)]
mod printed_cert_errors;
#[cfg(test)]
mod printed_errors;
#[cfg(test)]
mod showing;
#[cfg(test)]
mod writing;
