//! The tests of OpenSSH private keys and of the blobs of public keys: what no clause says. Values of other programs and of the
//! standards, and each call with an allocator where memory is ample.
#![tactic(auto)]

#[cfg(test)]
mod blob;
#[cfg(test)]
mod copies;
#[cfg(test)]
mod fingerprint;
#[cfg(test)]
mod key_of_block_refusals;
#[cfg(test)]
mod reading_and_writing;
#[cfg(test)]
mod reading_refusals;
#[cfg(test)]
mod sealing;
#[cfg(test)]
mod sealing_refusals;
#[cfg(test)]
mod view;
