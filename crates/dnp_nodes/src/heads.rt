//! What is looked at in a fragment, beside what its station makes of it.

ghost use Rattle.std.specs.Prelude.{◌≡◌, ◌≤◌, nat_eq, IfSome};
ghost use Rattle.dnp_nodes.specs.Callees as callees;
ghost use Rattle.dnp_nodes.specs.Heads.{IsHeadOf, octets_of};
ghost use Rattle.dnp_nodes.specs.declared.heads.TheConstants.{UNSOLICITED_RESPONSE};

use dnp_appfragment::Iin;

/// The octet of the function RESPONSE.
const RESPONSE: u8 = 129;

/// The octet of the function UNSOLICITED_RESPONSE.
const UNSOLICITED_RESPONSE: u8 = 130;

/// The octets of the functions that operate an output: OPERATE, DIRECT_OPERATE, DIRECT_OPERATE_NR.
const FIRST_OPERATING: u8 = 4;

const LAST_OPERATING: u8 = 6;

/// The head of a response.
#[derive(Clone, Copy, Debug, PartialEq, Eq)]
pub struct Head {
    /// Its application control octet.
    pub control: u8,
    /// The octet of its function: RESPONSE or UNSOLICITED_RESPONSE.
    pub function: u8,
    /// Its sequence number, 0 to 15.
    pub number: u8,
    /// Its indications.
    pub iin: Iin,
}

impl Head {
    /// Gives its octets.
    pub fn octets(&self) -> [u8; 4]
        ensures { result ≡ octets_of self.now }
    {
        [self.control, self.function, self.iin.one, self.iin.two]
    }

    /// Whether it is that of an unsolicited response.
    pub fn is_unsolicited(&self) -> bool
        ensures { result ≡ nat_eq self.now.function UNSOLICITED_RESPONSE }
    {
        self.function == UNSOLICITED_RESPONSE
    }
}

/// The head of a fragment that is a response, unsolicited or not.
pub(crate) fn head_of(fragment: &[u8]) -> Option<Head>
    ensures number { IfSome result (λ head. head.number ≤ 15) }
    ensures octets { IfSome result (λ head. IsHeadOf head fragment.now) }
{
    match fragment {
        [control, function, one, two, ..]
            if *function == RESPONSE || *function == UNSOLICITED_RESPONSE => {
            Some(Head {
                control: *control,
                function: *function,
                number: *control % 16,
                iin: Iin {
                    one: *one,
                    two: *two,
                },
            })
        }
        _ => None,
    }
}

/// Whether a fragment asks for an output to be operated.
pub(crate) fn operates(fragment: &[u8]) -> bool
    ensures { result ≡ callees.operates fragment.now }
{
    match fragment {
        [_, function, ..] => FIRST_OPERATING <= *function && *function <= LAST_OPERATING,
        _ => false,
    }
}
