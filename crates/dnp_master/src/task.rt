use dnp_objects::Command;

/// Classes of points, by class from 0 to 3 (IEEE Std 1815-2012, application layer: class data): class 0 is
/// that of all present values, and classes 1 to 3 are those of events.
#[derive(Clone, Copy, Debug, PartialEq, Eq, Hash)]
pub struct Classes(pub [bool; 4]);

impl Classes {
    ghost use Rattle.std.specs.Prelude.{◌≡◌};
    ghost use Rattle.dnp_master.specs.Requests.{has_class, has_some};

    /// Whether this class is one of them.
    pub fn has(self, class: u8) -> bool
        ensures { result ≡ has_class self class }
    {
        let class = usize::from(class);
        class < 4 && self.0[class]
    }

    /// Whether there is any.
    pub fn has_some(self) -> bool
        ensures { result ≡ has_some self }
    {
        self.has(0) || self.has(1) || self.has(2) || self.has(3)
    }
}

/// What a master may ask of its outstation (IEEE Std 1815-2012, application layer: functions).
#[derive(Clone, Copy, Debug, PartialEq, Eq)]
pub enum Task {
    /// To be given the events, or the present values, of these classes.
    Poll(Classes),
    /// To forget that the device has started again.
    ClearRestart,
    /// To send events of these classes, 1 to 3, unasked.
    Enable(Classes),
    /// To send events of these classes, 1 to 3, unasked no longer.
    Disable(Classes),
    /// To set the clock, to milliseconds since 1970-01-01 00:00 UTC, below 2^48.
    WriteTime(u64),
    /// To be ready for this command.
    Select(Command),
    /// To carry out the command that stands selected.
    Operate(Command),
}

impl Task {
    ghost use Rattle.std.specs.Prelude.{◌≡◌};
    ghost use Rattle.dnp_master.specs.Requests.{is_good};
    ghost use Rattle.dnp_master.specs.Outcomes.{command_for};

    /// Whether the task can be asked: a class is named, to enable and to disable none but 1 to 3, and a
    /// time has 48 bits.
    pub fn is_good(&self) -> bool
        ensures { result ≡ is_good self.now }
    {
        match self {
            Task::Poll(classes) => classes.has_some(),
            Task::Enable(classes) | Task::Disable(classes) => {
                classes.has_some() && !classes.has(0)
            }
            Task::WriteTime(time) => *time < 1 << 48,
            Task::ClearRestart | Task::Select(_) | Task::Operate(_) => true,
        }
    }

    /// The command that it sends, if it sends one.
    pub(crate) fn command(&self) -> Option<Command>
        ensures { result ≡ command_for self.now }
    {
        match self {
            Task::Select(command) | Task::Operate(command) => Some(*command),
            _ => None,
        }
    }
}
