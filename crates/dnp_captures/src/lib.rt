//! Octets of DNP3 as people have them, and the lines that are printed of them, over `dnp_decode`: lines of hexadecimal octets,
//! and captures of the classic form, of which the streams of TCP and UDP are read. Each line says of which line of the text,
//! packet of the capture or octet of the stream it is.
#![tactic(auto)]

mod beyond;
mod blocks;
mod capture;
mod check_words;
mod dump;
mod hexadecimal;
mod item;
mod packet;
mod printing;
mod refused;
mod said;
mod standard;
mod streams;

pub use beyond::print_decoded;
pub use capture::{CaptureFault, decode_capture};
pub use check_words::{WrongWord, wrong_word};
pub use hexadecimal::{items_of_text, octets_of_text};
pub use item::{Item, What, place_octets};
pub use printing::{Form, Printer};
pub use refused::{Decoded, Refused, push_refused};
