//! Under which number the system reports what.

ghost use Rattle.std.specs.Prelude.{◌≡◌, ◌<◌};
ghost use Rattle.dnp_loop.specs.Tokens as spec;
ghost use Rattle.dnp_loop.specs.declared.token.Source.TheVariants.{Door, Place};

/// What a report of the system's is about.
#[derive(Clone, Copy, Debug, PartialEq, Eq)]
pub(crate) enum Source {
    /// Standard error.
    Log,
    /// The place at this index of the table.
    Place(usize),
    /// The door at this index.
    Door(usize),
}

/// The number under which the system reports that standard error takes octets.
pub(crate) const LOG_TOKEN: usize = 0;

/// How many places and doors there may be.
pub(crate) const MAX_SOURCES: usize = 1 << 32;

/// The number under which the system reports what happens at a place.
pub(crate) fn place_token(index: usize) -> usize
    requires { index < MAX_SOURCES }
    ensures { spec.source_of result ≡ Place index }
{
    2 * index + 2
}

/// The number under which the system reports what happens at a door.
pub(crate) fn door_token(index: usize) -> usize
    requires { index < MAX_SOURCES }
    ensures { spec.source_of result ≡ Door index }
{
    2 * index + 1
}

/// What is reported under this number.
pub(crate) fn source_of(token: usize) -> Source
    ensures { result ≡ spec.source_of token }
{
    let half = token / 2;
    if token % 2 == 1 {
        Source::Door(half)
    } else if token == LOG_TOKEN {
        Source::Log
    } else {
        Source::Place(half - 1)
    }
}
