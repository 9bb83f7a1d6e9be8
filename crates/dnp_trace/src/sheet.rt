//! Octets that are written one after the other.
ghost use Rattle.std.specs.Prelude.{◌≡◌, ◌<◌, [], ◌++◌, if◌then◌else◌, OnOk};
ghost use Rattle.dnp_trace.specs.Phrases.{digit as digit_of, octet_text, word_if as word_where};

use itoa::{Buffer, Integer};
use std::alloc::{AllocError, Global};
use std::marker::Model;

/// Octets that grow. An error says that memory ran out.
#[derive(Drop)]
pub(crate) struct Sheet {
    /// What is written so far.
    octets: Vec<u8>,
}

impl Model for Sheet {
    ghost use Rattle.std.specs.Prelude.{ℕ, List};

    ghost Value = { List ℕ };

    ghost view = { λ sheet. sheet.octets.items };
}

impl Sheet {
    /// Nothing is written yet.
    pub(crate) fn new(alloc: Global) -> Sheet
        ensures { result ≡ [] }
    {
        Sheet {
            octets: Vec::new(alloc),
        }
    }

    /// Writes octets.
    pub(crate) fn put(&mut self, octets: &[u8]) -> Result<(), AllocError>
        ensures { OnOk result (self.new ≡ self.old ++ octets.now) }
    {
        self.octets.extend_from_slice(octets)
    }

    /// Writes a word.
    pub(crate) fn word(&mut self, word: &str) -> Result<(), AllocError>
        ensures { OnOk result (self.new ≡ self.old ++ word.now) }
    {
        self.put(word.as_bytes())
    }

    /// Writes a word, if it is said.
    pub(crate) fn word_if(&mut self, said: bool, word: &str) -> Result<(), AllocError>
        ensures { OnOk result (self.new ≡ self.old ++ word_where said word.now) }
    {
        if said { self.word(word) } else { Ok(()) }
    }

    /// Writes a number in decimal digits.
    pub(crate) fn number<N: Integer>(&mut self, number: N) -> Result<(), AllocError>
        ensures { OnOk result (self.new ≡ self.old ++ N.text number) }
    {
        let mut digits = Buffer::new();
        self.put(digits.format(number).as_bytes())
    }

    /// Writes an octet as two hexadecimal digits.
    pub(crate) fn hex(&mut self, octet: u8) -> Result<(), AllocError>
        ensures { OnOk result (self.new ≡ self.old ++ octet_text octet) }
    {
        self.put(&[digit(octet / 16), digit(octet % 16)])
    }

    /// What is written.
    pub(crate) fn octets(&self) -> &[u8]
        ensures { result.now ≡ self.now }
    {
        self.octets.as_slice()
    }

    /// What is written.
    pub(crate) fn into_octets(self) -> Vec<u8>
        ensures { result.items ≡ self }
    {
        let Sheet { octets } = self;
        octets
    }
}

/// The hexadecimal digit of a number under 16.
fn digit(number: u8) -> u8
    requires { number < 16 }
    ensures { result ≡ digit_of number }
{
    if number < 10 {
        number + b'0'
    } else {
        number - 10 + b'A'
    }
}
