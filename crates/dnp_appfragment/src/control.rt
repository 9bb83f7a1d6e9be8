//! The control octets of fragments.
ghost use Rattle.std.specs.Prelude.{◌≡◌, ◌<◌};
ghost use Rattle.dnp_appfragment.specs.Control.{ControlBits, IsControl, control_octet};

use std::marker::Model;

/// The control octet of a fragment (IEEE Std 1815-2012, application layer).
#[derive(Clone, Copy, Debug, PartialEq, Eq, Hash)]
pub struct Control {
    /// The first fragment of a message.
    pub fir: bool,
    /// The last fragment of a message.
    pub fin: bool,
    /// The receiver is to confirm the fragment.
    pub con: bool,
    /// The fragment belongs to the unsolicited responses.
    pub uns: bool,
    /// The sequence number, 0 to 15.
    pub seq: u8,
}

impl Model for Control {
    ghost Value = { ControlBits };

    ghost view = { λ c. record { fir = c.fir; fin = c.fin; con = c.con; uns = c.uns; seq = c.seq } };

    ghost invariant = { λ c. c.seq < 16 };

    ghost inverse = { λ c. record { fir = c.fir; fin = c.fin; con = c.con; uns = c.uns; seq = c.seq } };
}

impl Control {
    ghost use Rattle.dnp_appfragment.specs.Meaning.{control_of};

    /// The control of this octet.
    pub fn read(octet: u8) -> Control
        ensures value { result ≡ control_of octet }
        ensures octet { control_octet result ≡ octet }
        ensures only { (control : ControlBits) → IsControl control → control_octet control ≡ octet → result ≡ control }
        ensures seq { IsControl result }
    {
        Control {
            fir: octet / 0x80 % 2 == 1,
            fin: octet / 0x40 % 2 == 1,
            con: octet / 0x20 % 2 == 1,
            uns: octet / 0x10 % 2 == 1,
            seq: octet % 16,
        }
    }

    /// Its octet.
    pub fn octet(self) -> u8
        ensures octet { result ≡ control_octet self }
        ensures seq { IsControl self }
    {
        let bit = |set: bool, bit: u8| if set { bit } else { 0 };
        bit(self.fir, 0x80)
            + bit(self.fin, 0x40)
            + bit(self.con, 0x20)
            + bit(self.uns, 0x10)
            + self.seq
    }
}
