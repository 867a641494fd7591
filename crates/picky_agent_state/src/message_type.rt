//! The types of messages, and the flags of a signature (draft-miller-ssh-agent-04).

pub const FAILURE: u8 = 5;

pub const SUCCESS: u8 = 6;

pub const REQUEST_IDENTITIES: u8 = 11;

pub const IDENTITIES_ANSWER: u8 = 12;

pub const SIGN_REQUEST: u8 = 13;

pub const SIGN_RESPONSE: u8 = 14;

pub const ADD_IDENTITY: u8 = 17;

pub const REMOVE_IDENTITY: u8 = 18;

pub const REMOVE_ALL_IDENTITIES: u8 = 19;

pub const LOCK: u8 = 22;

pub const UNLOCK: u8 = 23;

pub const RSA_SHA2_256: u32 = 2;

pub const RSA_SHA2_512: u32 = 4;
