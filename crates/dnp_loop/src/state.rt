//! What is known of the connection of a place, and what is done on it next. It has no socket.

ghost use Rattle.std.specs.Prelude.{◌≡◌, ◌≢◌, true, false};
ghost use Rattle.dnp_loop.specs.States as spec;
ghost use Rattle.dnp_loop.specs.declared.state.Action.TheVariants.{Read};

/// How far the connection of a place is.
#[derive(Clone, Copy, Debug, PartialEq, Eq)]
pub enum Stage {
    /// There is none.
    Absent,
    /// It is being made.
    Connecting,
    /// It stands.
    Up,
}

/// What is done on a connection next.
#[derive(Clone, Copy, Debug, PartialEq, Eq)]
pub enum Action {
    /// Nothing, until the system or the node has something new.
    Rest,
    /// It is looked at whether the connection came about.
    Look,
    /// Octets of the node are written.
    Write,
    /// Octets for the node are read.
    Read,
}

/// What is known of the connection of a place. The system reports each change once, so what it has reported is kept until a call
/// would wait.
#[derive(Clone, Copy, Debug, PartialEq, Eq)]
pub struct State {
    /// How far it is.
    pub stage: Stage,
    /// Whether a read may bring octets: from a report on, until a read would wait.
    pub may_read: bool,
    /// Whether a write may take octets: from a report on, until a write would wait.
    pub may_write: bool,
}

impl State {
    /// Makes that of a place without a connection.
    pub fn absent() -> State
        ensures { result ≡ spec.absent }
    {
        State {
            stage: Stage::Absent,
            may_read: false,
            may_write: false,
        }
    }

    /// Makes that of a connection that is being made: the system will report how that ended.
    pub fn connecting() -> State
        ensures { result ≡ spec.connecting }
    {
        State {
            stage: Stage::Connecting,
            may_read: false,
            may_write: false,
        }
    }

    /// Makes that of a connection that stands from now on: what it has is tried at once.
    pub fn up() -> State
        ensures { result ≡ spec.up }
    {
        State {
            stage: Stage::Up,
            may_read: true,
            may_write: true,
        }
    }

    /// Gives it after a report of the system's, which says of each change no more than that something is to be tried.
    pub fn reported(self) -> State
        ensures { result ≡ spec.reported self }
    {
        State {
            may_read: true,
            may_write: true,
            ..self
        }
    }

    /// Gives it after a read that would have waited.
    pub fn read_dry(self) -> State
        ensures { result ≡ spec.read_dry self }
    {
        State {
            may_read: false,
            ..self
        }
    }

    /// Gives it after a write that would have waited, or a look that found the connection still to come.
    pub fn written_full(self) -> State
        ensures { result ≡ spec.written_full self }
    {
        State {
            may_write: false,
            ..self
        }
    }

    /// Says what is done next, if the node has octets to be sent or has none. As long as it has some, nothing is read: a peer that
    /// doesn't read is not heard, and what it sends waits at its own end.
    pub fn next_action(self, has_output: bool) -> Action
        ensures action { result ≡ spec.next_action self has_output }
        ensures unheard { has_output ≡ true → result ≢ Read }
    {
        match self.stage {
            Stage::Absent => Action::Rest,
            Stage::Connecting => self.look_or_rest(),
            Stage::Up => self.move_or_rest(has_output),
        }
    }

    /// What is done while the connection is being made.
    fn look_or_rest(self) -> Action
        ensures { result ≡ spec.look_or_rest self }
    {
        if self.may_write {
            Action::Look
        } else {
            Action::Rest
        }
    }

    /// What is done while it stands.
    fn move_or_rest(self, has_output: bool) -> Action
        ensures { result ≡ spec.move_or_rest self has_output }
    {
        if has_output {
            if self.may_write {
                Action::Write
            } else {
                Action::Rest
            }
        } else if self.may_read {
            Action::Read
        } else {
            Action::Rest
        }
    }
}
