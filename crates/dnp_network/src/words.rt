//! Words that people give to things.

use std::alloc::{AllocError, Global};
use std::marker::Model;
use std::str;

/// A text of UTF-8. A clause sees it as its octets.
#[derive(Debug, Drop)]
pub struct Words {
    /// The octets.
    octets: Vec<u8>,
}

impl Model for Words {
    ghost use Rattle.std.specs.Prelude.{List, ℕ};

    ghost Value = { List ℕ };

    ghost view = { λ words. words.octets.items };
}

impl Words {
    ghost use Rattle.std.specs.Prelude.{◌≡◌, IfOk};
    ghost use Rattle.std.specs.Str.{IsUtf8};

    /// These octets.
    pub(crate) fn new(alloc: Global, octets: &[u8]) -> Result<Words, AllocError>
        ensures { IfOk result (λ words. words ≡ octets.now) }
    {
        Ok(Words {
            octets: Vec::from_slice(alloc, octets)?,
        })
    }

    /// The octets.
    pub fn as_bytes(&self) -> &[u8]
        ensures { result.now ≡ self.now }
    {
        self.octets.as_slice()
    }

    /// The text; an empty one where the octets are none.
    pub fn as_str(&self) -> &str
        ensures { IsUtf8 self.now → result.now ≡ self.now }
    {
        match str::from_utf8(self.octets.as_slice()) {
            Ok(text) => text,
            Err(_) => "",
        }
    }
}
