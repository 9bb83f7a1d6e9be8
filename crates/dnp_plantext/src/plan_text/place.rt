//! A place of a plan's text, and what stands there.

ghost use Rattle.std.specs.Prelude.{◌≡◌};
ghost use Rattle.dnp_plantext.specs.PlanReasons as spec;
ghost use Rattle.toml.specs.View.{view};

use dnp_concentrator::Span;
use toml::Value;

/// A key of a plan, or of one of its substations.
#[derive(Clone, Copy, Debug)]
pub enum PlanKey {
    /// `confirm_ms`
    ConfirmMs,
    /// `response_ms`
    ResponseMs,
    /// `select_ms`
    SelectMs,
    /// `retries`
    Retries,
    /// `unsolicited`
    Unsolicited,
    /// `queue`
    Queue,
    /// `queue2`
    Queue2,
    /// `substation`
    Substation,
    /// `lanes`
    Lanes,
    /// `binary`
    Binary,
    /// `counter`
    Counter,
    /// `analog`
    Analog,
    /// `deadband`
    Deadband,
    /// `outputs`
    Outputs,
    /// `setpoints`
    Setpoints,
    /// `base`
    Base,
    /// A key that no plan has.
    Unknown,
}

impl PlanKey {
    /// The key as the text has it; a key that no plan has is an empty one here.
    pub(crate) fn name(self) -> &'static str
        ensures { result.now ≡ spec.name_of self }
    {
        match self {
            PlanKey::ConfirmMs => "confirm_ms",
            PlanKey::ResponseMs => "response_ms",
            PlanKey::SelectMs => "select_ms",
            PlanKey::Retries => "retries",
            PlanKey::Unsolicited => "unsolicited",
            PlanKey::Queue => "queue",
            PlanKey::Queue2 => "queue2",
            PlanKey::Substation => "substation",
            PlanKey::Lanes => "lanes",
            PlanKey::Binary => "binary",
            PlanKey::Counter => "counter",
            PlanKey::Analog => "analog",
            PlanKey::Deadband => "deadband",
            PlanKey::Outputs => "outputs",
            PlanKey::Setpoints => "setpoints",
            PlanKey::Base => "base",
            PlanKey::Unknown => "",
        }
    }
}

/// What stands at a place.
#[derive(Clone, Copy, Debug)]
pub enum Found {
    /// Nothing.
    Missing,
    /// A key that no plan has.
    Unknown,
    /// A string.
    Text,
    /// A whole number that isn't looked at.
    Whole,
    /// A number with a point or an exponent.
    Float,
    /// `true` or `false`.
    Truth,
    /// A date or a time.
    Datetime,
    /// A list.
    List,
    /// A table.
    Table,
    /// A list of so many.
    Count(usize),
    /// This number.
    Number(i64),
    /// Indices above of which the last is over the highest.
    Indices(Span),
    /// Indices above of which the substation with this number has one too.
    Shared(usize),
}

impl Found {
    /// The type of a value.
    pub(crate) fn of(value: &Value) -> Found
        ensures { result ≡ spec.type_found (view value.now) }
    {
        match value {
            Value::String(_) => Found::Text,
            Value::Integer(_) => Found::Whole,
            Value::Float(_) => Found::Float,
            Value::Boolean(_) => Found::Truth,
            Value::Datetime(_) => Found::Datetime,
            Value::Array(_) => Found::List,
            Value::Table(_) => Found::Table,
        }
    }
}

/// A place of a plan's text, and what stands there.
#[derive(Clone, Copy, Debug)]
pub struct PlanPlace {
    /// The substation, from 0, or none where the key is the plan's own.
    pub substation: Option<usize>,
    /// The key.
    pub key: PlanKey,
    /// The item of the key's list, from 0, or none where it is the whole value.
    pub item: Option<usize>,
    /// What stands there.
    pub found: Found,
}
