//! What the lines of authorized keys say.

use crate::auth_option::AuthOption;
use picky_keys::{SshPublicKey, SshPublicKeyError};
use picky_wire::List;

/// What a line says.
#[derive(Debug, Drop)]
pub enum AuthContent {
    /// A key, with the options that stand before it.
    Key {
        options: List<AuthOption>,
        key: SshPublicKey,
    },
    /// An option isn't `NAME` or `NAME="TEXT"`, `cert-authority` has a value, `principals` has none, or one of these two
    /// stands twice.
    BadOptions,
    /// The options fit, and the public line behind them is refused.
    Unread(SshPublicKeyError),
}

/// A line that is neither empty nor a comment, by its number from 1.
#[derive(Debug, Drop)]
pub struct AuthEntry {
    pub line: usize,
    pub content: AuthContent,
}
