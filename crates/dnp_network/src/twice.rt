//! What stands twice in the text of a network: the same host and port, or the same name.

ghost use Rattle.std.specs.Prelude.{◌≡◌, option_copied};
ghost use Rattle.std.specs.Str.{str_eq_ignore_ascii_case};
ghost use Rattle.dnp_network.specs.Networks as spec;

use crate::endpoint::{Endpoint, Host};
use crate::network::{Head, Site};
use crate::place::{NetworkKey, NetworkPlace, Part, Stands, place};

/// Whether two words are the same, but for upper and lower case of the letters a to z.
fn same_words(one: &[u8], other: &[u8]) -> bool
    ensures { result ≡ str_eq_ignore_ascii_case one.now other.now }
{
    one.eq_ignore_ascii_case(other)
}

/// Whether two hosts are the same.
fn same_host(one: &Host, other: &Host) -> bool
    ensures { result ≡ spec.same_host one.now other.now }
{
    match (one, other) {
        (Host::V4(one), Host::V4(other)) => one == other,
        (Host::V6(one), Host::V6(other)) => one == other,
        (Host::Name(one), Host::Name(other)) => same_words(one.as_bytes(), other.as_bytes()),
        _ => false,
    }
}

/// Whether two places are the same host and port.
#[tactic(auto, unfolding(crate::specs::Networks::same_endpoint))]
fn same_endpoint(one: &Endpoint, other: &Endpoint) -> bool
    ensures { result ≡ spec.same_endpoint one.now other.now }
{
    one.port == other.port && same_host(&one.host, &other.host)
}

/// Whether a substation has this name.
fn has_name(name: &[u8], site: &Site) -> bool
    ensures { result ≡ spec.has_name name.now site.now.name }
{
    match &site.name {
        Some(other) => same_words(name, other.as_bytes()),
        None => false,
    }
}

/// The first substation of this name.
fn first_named(name: &[u8], sites: &[Site]) -> Option<usize>
    ensures { result ≡ spec.first_named 0 name.now sites.now }
{
    for (number, site) in sites.iter().enumerate() {
        if has_name(name, site) {
            return Some(number);
        }
    }
    None
}

/// The first substation at this host and port.
fn first_placed(at: &Endpoint, sites: &[Site]) -> Option<usize>
    ensures { result ≡ spec.first_placed 0 at.now sites.now }
{
    for (number, site) in sites.iter().enumerate() {
        if same_endpoint(at, &site.at) {
            return Some(number);
        }
    }
    None
}

/// The place at which something stands that the substation with this number has, if there is one.
fn twice(part: Part, key: NetworkKey, first: Option<usize>) -> Option<NetworkPlace>
    ensures { result ≡ spec.twice part key first }
{
    match first {
        Some(number) => Some(place(part, key, Stands::Twice(number))),
        None => None,
    }
}

/// The name of a substation, where one of those before it has it.
fn name_twice(number: usize, site: &Site, before: &[Site]) -> Option<NetworkPlace>
    ensures { result ≡ spec.name_twice number site.now.name before.now }
{
    match &site.name {
        Some(name) => twice(
            Part::Substation(number),
            NetworkKey::Name,
            first_named(name.as_bytes(), before),
        ),
        None => None,
    }
}

/// What a substation has that one of those before it has too.
#[tactic(auto, unfolding(crate::specs::Networks::site_twice))]
pub(crate) fn site_twice(number: usize, site: &Site, before: &[Site]) -> Option<NetworkPlace>
    ensures { result ≡ spec.site_twice number site.now before.now }
{
    twice(
        Part::Substation(number),
        NetworkKey::At,
        first_placed(&site.at, before),
    )
    .or(name_twice(number, site, before))
}

/// What is said of the second centre, where it is what is said of the first.
fn again(
    key: NetworkKey,
    first: NetworkKey,
    at2: Option<&Endpoint>,
    at: &Endpoint,
) -> Option<NetworkPlace>
    ensures { result ≡ spec.again key first (option_copied at2.entry) at.now }
{
    match at2 {
        Some(at2) if same_endpoint(at2, at) => {
            Some(place(Part::Concentrator, key, Stands::As(first)))
        }
        _ => None,
    }
}

/// Where the second centre finds the concentrator, if a substation is there.
fn second_placed(at2: Option<&Endpoint>, sites: &[Site]) -> Option<NetworkPlace>
    ensures { result ≡ spec.second_placed (option_copied at2.entry) sites.now }
{
    match at2 {
        Some(at2) => twice(
            Part::Concentrator,
            NetworkKey::At2,
            first_placed(at2, sites),
        ),
        None => None,
    }
}

/// What the concentrator has that stands twice.
#[tactic(auto, unfolding(crate::specs::Networks::head_twice))]
pub(crate) fn head_twice(head: &Head, sites: &[Site]) -> Option<NetworkPlace>
    ensures { result ≡ spec.head_twice head.now sites.now }
{
    again(
        NetworkKey::Listen2,
        NetworkKey::Listen,
        head.listen2.as_ref(),
        &head.listen,
    )
    .or(again(NetworkKey::At2, NetworkKey::At, head.at2(), head.at()))
    .or(twice(
        Part::Concentrator,
        NetworkKey::At,
        first_placed(head.at(), sites),
    ))
    .or(second_placed(head.at2(), sites))
}
