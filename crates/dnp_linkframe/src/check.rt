//! The check word of the data link layer.

ghost use Rattle.std.specs.Prelude.{◌≡◌, ℕ, ◌+◌, ◌*◌, ◌<◌, List, [], ◌∷◌};
ghost use Rattle.dnp_linkframe.specs.CheckWord.{IsCheckWord, remainder};
ghost use Rattle.dnp_linkframe.specs.steps.Division.{Continues, Leaves};
ghost use Rattle.dnp_linkframe.specs.Polynomials.{times_x};

use crate::table::LEFT_OF_OCTET;

/// The check word of `octets`: the cyclic redundancy check of 16 bits that IEEE Std 1815-2012, data
/// link layer, puts after the header of a frame and after each block of its user data, lower octet
/// first. Every list of octets, the empty one too, has exactly one.
pub fn check_word(octets: &[u8]) -> u16
    ensures defined { IsCheckWord octets.now result }
    ensures only { (word : ℕ) → IsCheckWord octets.now word → word ≡ result }
{
    let (blocks, rest) = octets.as_chunks::<8>();
    let mut word: u16 = 0;
    for block in blocks {
        word = after_eight(word, block);
    }
    for octet in rest {
        word = after_octet(word, *octet);
    }
    !word
}

/// Divides on by eight octets at once: the word is added to the first two of them, and what each octet
/// leaves once those after it are divided too is in the table.
#[inline]
fn after_eight(word: u16, octets: &[u8; 8]) -> u16
    ensures { Continues octets.now word result }
{
    let [a, b, c, d, e, f, g, h] = *octets;
    let a = (word & 0xFF) as u8 ^ a;
    let b = (word >> 8) as u8 ^ b;
    left_of(h, 0)
        ^ left_of(g, 1)
        ^ left_of(f, 2)
        ^ left_of(e, 3)
        ^ left_of(d, 4)
        ^ left_of(c, 5)
        ^ left_of(b, 6)
        ^ left_of(a, 7)
}

/// Divides on by one octet: what the octet and the lower half of the word leave is in the table,
/// and the upper half moves down.
#[inline]
fn after_octet(word: u16, octet: u8) -> u16
    ensures { Continues (octet ∷ []) word result }
{
    left_of(((word ^ octet as u16) & 0xFF) as u8, 0) ^ word >> 8
}

/// What is left of an octet after its eight bits and those of `after` octets of zeros.
#[inline]
fn left_of(octet: u8, after: usize) -> u16
    requires { after < 8 }
    ensures { Leaves (times_x (8 * (after + 1)) (remainder octet)) (remainder result) }
{
    LEFT_OF_OCTET[after][octet as usize]
}
