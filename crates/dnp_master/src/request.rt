use crate::outcome::Echo;
use crate::task::Task;

/// A request whose response isn't there to the end.
#[derive(Clone, Copy)]
pub(crate) struct OpenRequest {
    pub task: Task,
    /// Whether the first fragment of the response came.
    pub has_begun: bool,
    pub echo: Echo,
    /// When the response timer ends, in milliseconds.
    pub ends: u64,
}

/// What a response is to the master.
#[derive(Clone, Copy)]
pub(crate) enum Case {
    /// Nothing that it takes.
    Unheeded,
    /// The next fragment of the response to this request.
    Awaited(OpenRequest),
    /// A response that nobody asked for.
    Report,
}
