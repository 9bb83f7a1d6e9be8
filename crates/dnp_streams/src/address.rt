//! The address of a station, as the command line writes it.

ghost use Rattle.std.specs.Prelude.{◌≡◌, ◌↔◌, ℕ, Some};
ghost use Rattle.dnp_streams.specs.Address.{IsAddressText};

/// The highest address that one station alone may have: those above it are reserved or mean all stations (IEEE Std
/// 1815-2012, data link layer).
pub const MAX_ADDRESS: u16 = 65_519;

/// Reads a station's address, a decimal number from 0 to [`MAX_ADDRESS`]. Zeros may come first; a sign, a space or any
/// other character makes it no address.
pub fn read_address(text: &str) -> Option<u16>
    ensures exact { (n : ℕ) → (result ≡ Some n) ↔ IsAddressText text.now n }
{
    // The library's `parse` takes one plus sign before the digits.
    if matches!(text.as_bytes(), [b'+', ..]) {
        return None;
    }
    match text.parse::<u16>() {
        Ok(address) if address <= MAX_ADDRESS => Some(address),
        _ => None,
    }
}
