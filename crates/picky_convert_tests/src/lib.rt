//! The tests of the program: what key texts are converted to, sealed and not, and how runs end.
#![tactic(auto)]

#[cfg(test)]
mod conversion;
#[cfg(test)]
mod fingerprint;
#[cfg(test)]
mod line_and_source_line;
#[cfg(test)]
mod ppk_limits;
#[cfg(test)]
mod private_conversions;
#[cfg(test)]
mod program_and_reports;
#[cfg(test)]
mod real_files;
#[cfg(test)]
mod refused_inputs;
#[cfg(test)]
mod runs;
#[cfg(test)]
mod sealed_conversions;
#[cfg(test)]
mod summary;
