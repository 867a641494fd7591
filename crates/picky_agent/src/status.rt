//! How serving ends.

ghost use Rattle.std.specs.Prelude.{◌≡◌};

/// How serving ends.
#[derive(Clone, Copy, Debug, PartialEq, Eq)]
pub enum AgentStatus {
    /// The stream ended behind a message.
    Done,
    /// A length is 0, or above 262,144.
    BadFrame,
    /// The stream ended inside a message.
    Cut,
    /// The source failed.
    ReadFault,
    /// The sink failed.
    WriteFault,
    /// Memory ran out.
    NoMemory,
    /// 18,446,744,073,709,551,615 messages were answered.
    TooMany,
}

impl AgentStatus {
    ghost use Rattle.picky_agent.specs.ExitCode.{exit_code as exit_code_of};

    /// The number with which the program ends: 0 for Done.
    pub fn exit_code(&self) -> u8
        ensures { result ≡ exit_code_of self.now }
    {
        match self {
            AgentStatus::Done => 0,
            AgentStatus::BadFrame => 1,
            AgentStatus::Cut => 2,
            AgentStatus::ReadFault => 3,
            AgentStatus::WriteFault => 4,
            AgentStatus::NoMemory => 5,
            AgentStatus::TooMany => 6,
        }
    }
}
