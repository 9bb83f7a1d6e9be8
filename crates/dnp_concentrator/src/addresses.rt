//! The link addresses of a system's stations (IEEE Std 1815-2012, data link layer: addresses), each of which stands here
//! alone.

ghost use Rattle.std.specs.Prelude.{◌≡◌, ◌<◌};
ghost use Rattle.dnp_concentrator.specs.Addresses as spec;

use dnp_eventbuf::CENTRES;

/// The link address of the first centre.
pub const CENTRE: u16 = 1;

/// The link address of the concentrator as the master of every substation.
pub const MASTER_BELOW: u16 = 2;

/// The link address of the second centre.
pub const SECOND_CENTRE: u16 = 3;

/// The link address of the concentrator's outstations, towards either centre.
pub const CONCENTRATOR_ABOVE: u16 = 9;

/// The link address of the outstation of substation 0. Those of the others follow it.
pub const FIRST_OUTSTATION: u16 = 10;

/// The link address of a centre.
pub fn centre_address(centre: u8) -> u16
    requires { centre < CENTRES }
    ensures { result ≡ spec.centre_address centre }
{
    if centre == 0 { CENTRE } else { SECOND_CENTRE }
}

/// The link address of a substation's outstation.
pub fn outstation_address(substation: u8) -> u16
    ensures { result ≡ spec.outstation_address substation }
{
    FIRST_OUTSTATION + u16::from(substation)
}
