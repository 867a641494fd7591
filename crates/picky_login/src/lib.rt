//! A login decided by answers: authorized keys, an offer, a user and a moment, each as bytes of its own, and the verdict of the
//! issuer's signature by question and answer.
//!
//! Read first: `specs/Judged.antt` and `specs/Login.antt`; then `src/call.rt`.
#![tactic(auto)]

mod call;
mod error;
mod judged;
mod login;
mod printed;
mod trusting;
mod verdict;

pub use call::decide_login;
pub use error::LoginError;
pub use login::Login;
