//! The tests of certificates: those of ssh-keygen, read, printed and converted, and why certificates are refused.
#![tactic(auto)]

#[cfg(test)]
mod answers;
#[cfg(test)]
mod builder;
#[cfg(test)]
mod cert_faults;
#[cfg(test)]
mod cert_parts;
#[cfg(test)]
mod cert_streams;
#[cfg(test)]
mod certificate_and_view;
#[cfg(test)]
mod certificate_field;
#[cfg(test)]
mod conversion;
#[cfg(test)]
mod line;
#[cfg(test)]
mod refusal;
#[cfg(test)]
mod written;
#[cfg(test)]
mod zero_cert;
