//! Responses that were read.

use crate::control::Control;
use crate::function::Function;
use crate::headers::Headers;
use crate::iin::Iin;

/// A response (IEEE Std 1815-2012, application layer). Its headers are those that divide the octets
/// after the indications.
#[derive(Debug, Drop)]
pub struct Response<'a> {
    /// Its control octet.
    pub control: Control,
    /// RESPONSE or UNSOLICITED_RESPONSE.
    pub function: Function,
    /// Its internal indications.
    pub iin: Iin,
    /// Its headers, to be gone through.
    pub headers: Headers<'a>,
}
