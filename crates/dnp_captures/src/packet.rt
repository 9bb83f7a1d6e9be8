//! Packets of a capture: what TCP and UDP carry.

ghost use Rattle.std.specs.Prelude.{◌≡◌, drop, take, slice_index};

/// The most octets of an address: those of an IPv6 address.
pub(crate) const ADDRESS: usize = 16;

/// TCP and UDP, as the numbers of protocols of IP.
const TCP: u8 = 6;

const UDP: u8 = 17;

/// IPv4 and IPv6, as the types of Ethernet.
const ETHER_IPV4: u16 = 0x0800;

const ETHER_IPV6: u16 = 0x86DD;

/// A tag of a virtual network, and one around another.
const ETHER_TAG: u16 = 0x8100;

const ETHER_TAGS: u16 = 0x88A8;

/// The octets before the type of an Ethernet frame, and of a packet of Linux's `any`; and those of the header of its second form.
const ETHERNET: usize = 12;

const COOKED: usize = 14;

const COOKED_TWO: usize = 20;

/// One direction of a connection.
#[derive(Clone, Copy, PartialEq, Eq)]
pub(crate) struct Way {
    /// The address that sends; of IPv4 the first four octets.
    pub source: [u8; ADDRESS],
    /// The address that is sent to.
    pub dest: [u8; ADDRESS],
    /// The port that sends.
    pub from: u16,
    /// The port that is sent to.
    pub to: u16,
    /// Whether it is TCP, and not UDP.
    pub tcp: bool,
}

/// What a packet carries.
#[derive(Clone, Copy)]
pub(crate) struct Payload<'a> {
    /// Its direction.
    pub way: Way,
    /// The sequence number of its first octet, under TCP.
    pub sequence: u32,
    /// Whether it begins a connection.
    pub begins: bool,
    /// The octets.
    pub octets: &'a [u8],
}

/// How packets begin in a capture.
#[derive(Clone, Copy, PartialEq, Eq)]
pub(crate) enum Link {
    /// Ethernet.
    Ethernet,
    /// IP, with nothing before it.
    Raw,
    /// The family of addresses in four octets, and then IP.
    Null,
    /// Linux's `any`: 16 octets, of which the last two are a type of Ethernet.
    Cooked,
    /// Its second form: 20 octets, of which the first two are that type.
    CookedTwo,
}

/// The octet at a place, or 0 past the end.
pub(crate) fn octet_at(octets: &[u8], place: usize) -> u8
    ensures { result ≡ slice_index octets.now place }
{
    if place < octets.len() {
        octets[place]
    } else {
        0
    }
}

/// The octets from a place on, or none past the end.
pub(crate) fn rest_of(octets: &[u8], place: usize) -> &[u8]
    ensures { result.now ≡ drop place octets.now }
{
    if place <= octets.len() {
        &octets[place..]
    } else {
        &[]
    }
}

/// The first so many octets, or all where there are fewer.
pub(crate) fn first_of(octets: &[u8], count: usize) -> &[u8]
    ensures { result.now ≡ take count octets.now }
{
    if count <= octets.len() {
        &octets[..count]
    } else {
        octets
    }
}

/// A number of two octets in the order of networks.
fn number_at(octets: &[u8], place: usize) -> u16 {
    let rest = rest_of(octets, place);
    u16::from_be_bytes([octet_at(rest, 0), octet_at(rest, 1)])
}

/// A number of four octets in the order of networks.
fn long_at(octets: &[u8], place: usize) -> u32 {
    let rest = rest_of(octets, place);
    u32::from_be_bytes([
        octet_at(rest, 0),
        octet_at(rest, 1),
        octet_at(rest, 2),
        octet_at(rest, 3),
    ])
}

/// The address of so many octets at a place.
fn address_at(octets: &[u8], place: usize, count: usize) -> [u8; ADDRESS] {
    let mut address = [0; ADDRESS];
    for (index, octet) in first_of(rest_of(octets, place), count).iter().enumerate() {
        if index < ADDRESS {
            address[index] = *octet;
        }
    }
    address
}

/// What an IP packet has after its own header: its protocol, its addresses and the octets.
struct Inner<'a> {
    /// The protocol's number.
    protocol: u8,
    /// The address that sends.
    source: [u8; ADDRESS],
    /// The address that is sent to.
    dest: [u8; ADDRESS],
    /// The octets.
    octets: &'a [u8],
}

/// What an IPv4 packet carries, unless it is a part of one that was cut.
fn inside_ipv4(packet: &[u8]) -> Option<Inner<'_>> {
    let header = usize::from(octet_at(packet, 0) % 16) * 4;
    let length = usize::from(number_at(packet, 2));
    // (more fragments, or an offset)
    if header < 20 || length < header || number_at(packet, 6) & 0x3FFF != 0 {
        return None;
    }
    Some(Inner {
        protocol: octet_at(packet, 9),
        source: address_at(packet, 12, 4),
        dest: address_at(packet, 16, 4),
        octets: rest_of(first_of(packet, length), header),
    })
}

/// What an IPv6 packet carries, unless another header stands before it.
fn inside_ipv6(packet: &[u8]) -> Option<Inner<'_>> {
    if packet.len() < 40 {
        return None;
    }
    let length = usize::from(number_at(packet, 4));
    Some(Inner {
        protocol: octet_at(packet, 6),
        source: address_at(packet, 8, ADDRESS),
        dest: address_at(packet, 24, ADDRESS),
        octets: first_of(rest_of(packet, 40), length),
    })
}

/// What an IP packet carries, of either kind.
fn inside_ip(packet: &[u8]) -> Option<Inner<'_>> {
    match octet_at(packet, 0) / 16 {
        4 => inside_ipv4(packet),
        6 => inside_ipv6(packet),
        _ => None,
    }
}

/// An Ethernet frame from its type on, without a tag that stands there.
fn without_tag(frame: &[u8]) -> &[u8] {
    match number_at(frame, 0) {
        ETHER_TAG | ETHER_TAGS => rest_of(frame, 4),
        _ => frame,
    }
}

/// What follows a type of Ethernet, with a tag or two before it or none.
fn inside_typed(octets: &[u8]) -> Option<Inner<'_>> {
    let typed = without_tag(without_tag(octets));
    match number_at(typed, 0) {
        ETHER_IPV4 | ETHER_IPV6 => inside_ip(rest_of(typed, 2)),
        _ => None,
    }
}

/// What follows the second header of Linux's `any`, which begins with a type of Ethernet.
fn inside_cooked(packet: &[u8]) -> Option<Inner<'_>> {
    match number_at(packet, 0) {
        ETHER_IPV4 | ETHER_IPV6 => inside_ip(rest_of(packet, COOKED_TWO)),
        ETHER_TAG | ETHER_TAGS => inside_typed(rest_of(packet, COOKED_TWO + 2)),
        _ => None,
    }
}

/// What a packet of a capture carries, if it is of TCP or UDP.
pub(crate) fn payload_of(link: Link, packet: &[u8]) -> Option<Payload<'_>> {
    let inner = match link {
        Link::Ethernet => inside_typed(rest_of(packet, ETHERNET))?,
        Link::Cooked => inside_typed(rest_of(packet, COOKED))?,
        Link::CookedTwo => inside_cooked(packet)?,
        Link::Raw => inside_ip(packet)?,
        Link::Null => inside_ip(rest_of(packet, 4))?,
    };
    let Inner {
        protocol,
        source,
        dest,
        octets,
    } = inner;
    if octets.len() < 8 {
        return None;
    }
    let way = Way {
        source,
        dest,
        from: number_at(octets, 0),
        to: number_at(octets, 2),
        tcp: protocol == TCP,
    };
    match protocol {
        TCP => {
            let header = usize::from(octet_at(octets, 12) / 16) * 4;
            Some(Payload {
                way,
                sequence: long_at(octets, 4),
                begins: octet_at(octets, 13) / 2 % 2 == 1,
                octets: rest_of(octets, header),
            })
        }
        UDP => Some(Payload {
            way,
            sequence: 0,
            begins: false,
            octets: rest_of(octets, 8),
        }),
        _ => None,
    }
}
