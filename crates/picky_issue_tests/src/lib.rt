//! The tests of certificates that the program issues: rows worked by hand, refusals, devices that fail, and what OpenSSH accepts.
#![tactic(auto)]

#[cfg(test)]
mod certifying;
#[cfg(test)]
mod devices;
#[cfg(test)]
mod issued;
#[cfg(test)]
mod issuer;
#[cfg(test)]
mod openssh;
#[cfg(test)]
mod parts;
#[cfg(test)]
mod refused_requests;
#[cfg(test)]
mod runs;
#[cfg(test)]
mod zero_lines;
