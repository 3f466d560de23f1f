//! The output of a command.

/// The output of a command, and its ending.
#[derive(Drop)]
pub struct Answer {
    pub text: Vec<u8>,
    pub ending: Ending,
}

/// The ending of a command that writes its whole output.
#[derive(Clone, Copy)]
pub enum Ending {
    /// The command wrote its output; for an audit, that the audited output is the program's.
    Written,
    /// The audited output isn't the program's.
    Illegal,
}
