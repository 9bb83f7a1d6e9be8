//! Commands to outputs.

/// A command to an output of a station (IEEE Std 1815-2012, object library: groups 12 and 41).
///
/// Two commands are equal if they are of one form and all their fields are equal.
#[derive(Clone, Copy, Debug, PartialEq, Eq, Hash)]
pub enum Command {
    /// Operates a binary output (group 12 variation 1, the control relay output block).
    Block {
        /// The output's number, from 0.
        index: u16,
        /// The control code: what to do, as one octet.
        code: u8,
        /// How many times to do it.
        count: u8,
        /// How long the output is on each time, in milliseconds.
        on_ms: u32,
        /// How long the output is off each time, in milliseconds.
        off_ms: u32,
    },
    /// Sets an analog output of 16 bits (group 41 variation 2).
    Set16 {
        /// The output's number, from 0.
        index: u16,
        /// The value to set.
        value: i16,
    },
    /// Sets an analog output of 32 bits (group 41 variation 1).
    Set32 {
        /// The output's number, from 0.
        index: u16,
        /// The value to set.
        value: i32,
    },
}

impl Command {
    ghost use Rattle.std.specs.Prelude.{◌≡◌};
    ghost use Rattle.dnp_objects.specs.Commands.{object_of, index_of};

    /// The output that the command is for.
    pub fn index(&self) -> u16
        ensures { result ≡ index_of self.now }
    {
        match *self {
            Command::Block { index, .. }
            | Command::Set16 { index, .. }
            | Command::Set32 { index, .. } => index,
        }
    }

    /// The group and the variation of the object that carries the command (IEEE Std 1815-2012, object
    /// library): 12.1, 41.2 or 41.1.
    pub fn object(&self) -> (u8, u8)
        ensures { result ≡ object_of self.now }
    {
        match self {
            Command::Block { .. } => (12, 1),
            Command::Set16 { .. } => (41, 2),
            Command::Set32 { .. } => (41, 1),
        }
    }
}
