//! Requests that were read.

use crate::control::Control;
use crate::function::Function;
use crate::headers::Headers;

/// A request (IEEE Std 1815-2012, application layer). Its headers are those that divide the octets
/// after the function; a CONFIRM and a DELAY_MEASURE have none, whatever follows.
#[derive(Debug, Drop)]
pub struct Request<'a> {
    /// Its control octet.
    pub control: Control,
    /// What it asks for.
    pub function: Function,
    /// Its headers, to be gone through.
    pub headers: Headers<'a>,
}
