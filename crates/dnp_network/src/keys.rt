//! The values of a network's keys.

ghost use Rattle.std.specs.Prelude.{◌≡◌, IfOk};
ghost use Rattle.toml.specs.View.{view};
ghost use Rattle.dnp_network.specs.Keys as spec;

use crate::endpoint::{Endpoint, endpoint_in};
use crate::place::{MAX_ADDRESS, NetworkKey, NetworkPlace, Part, Stands, place};
use crate::words::Words;
use std::alloc::{AllocError, Global};
use toml::Value;

/// What is read, or the first place that is wrong.
pub(crate) type Taken<T> = Result<T, NetworkPlace>;

/// Whether a table has this key.
#[tactic(auto, unfolding(crate::specs::Keys::is_there))]
pub(crate) fn is_there(table: &Value, key: NetworkKey) -> bool
    ensures { result ≡ spec.is_there key (view table.now) }
{
    table.get(key.name()).is_some()
}

/// How many of these keys a table has.
fn known_count(table: &Value, keys: &[NetworkKey]) -> usize
    ensures { result ≡ spec.known_count keys.now (view table.now) }
{
    keys.iter().filter(|key| is_there(table, **key)).count()
}

/// Whether a table has so many keys.
#[tactic(auto, unfolding(crate::specs::Keys::has_keys))]
fn has_so_many_keys(table: &Value, count: usize) -> bool
    ensures { result ≡ spec.has_keys count (view table.now) }
{
    match table.as_table() {
        Some(keys) => keys.len() == count,
        None => false,
    }
}

/// Where another key stands in a part than those that it has.
#[tactic(auto, unfolding(crate::specs::Keys::unknown_fault))]
pub(crate) fn unknown_fault(table: &Value, part: Part) -> Option<NetworkPlace>
    ensures { result ≡ spec.unknown_fault part (view table.now) }
{
    if has_so_many_keys(table, known_count(table, part.keys())) {
        None
    } else {
        Some(place(part, NetworkKey::Unknown, Stands::Unknown))
    }
}

/// The words under a key, if it is there.
#[tactic(auto, unfolding(crate::specs::Keys::words_under))]
pub(crate) fn words_at(
    alloc: Global,
    table: &Value,
    part: Part,
    key: NetworkKey,
) -> Result<Taken<Option<Words>>, AllocError>
    ensures { IfOk result (λ words. words ≡ spec.words_under part key (view table.now)) }
{
    let Some(value) = table.get(key.name()) else {
        return Ok(Ok(None));
    };
    let Some(text) = value.as_str() else {
        return Ok(Err(place(part, key, Stands::of(value))));
    };
    if text.is_empty() {
        return Ok(Err(place(part, key, Stands::Empty)));
    }
    Ok(Ok(Some(Words::new(alloc, text.as_bytes())?)))
}

/// The number as a link address, if it may be one.
fn address_within(number: i64) -> Option<u16>
    ensures { result ≡ spec.within number }
{
    match u16::try_from(number) {
        Ok(address) if address <= MAX_ADDRESS => Some(address),
        _ => None,
    }
}

/// The link address under a key, or the usual one where it is missing.
#[tactic(auto, unfolding(crate::specs::Keys::address_under))]
pub(crate) fn address_at(table: &Value, part: Part, key: NetworkKey, usual: u16) -> Taken<u16>
    ensures { result ≡ spec.address_under part key usual (view table.now) }
{
    let Some(value) = table.get(key.name()) else {
        return Ok(usual);
    };
    let Some(number) = value.as_integer() else {
        return Err(place(part, key, Stands::of(value)));
    };
    match address_within(number) {
        Some(address) => Ok(address),
        None => Err(place(part, key, Stands::Number(number))),
    }
}

/// Where a station's own link address stands for another's.
#[tactic(auto, unfolding(crate::specs::Keys::own_fault))]
pub(crate) fn own_fault(part: Part, key: NetworkKey, own: u16, other: u16) -> Option<NetworkPlace>
    ensures { result ≡ spec.own_fault part key own other }
{
    if own == other {
        Some(place(part, key, Stands::Own(own)))
    } else {
        None
    }
}

/// The host and port under a key, if it is there.
#[tactic(auto, unfolding(crate::specs::Keys::endpoint_under))]
pub(crate) fn endpoint_at(
    alloc: Global,
    table: &Value,
    part: Part,
    key: NetworkKey,
) -> Result<Taken<Option<Endpoint>>, AllocError>
    ensures { IfOk result (λ endpoint. endpoint ≡ spec.endpoint_under part key (view table.now)) }
{
    let Some(value) = table.get(key.name()) else {
        return Ok(Ok(None));
    };
    let Some(text) = value.as_str() else {
        return Ok(Err(place(part, key, Stands::of(value))));
    };
    match endpoint_in(alloc, text.as_bytes())? {
        Ok(endpoint) => Ok(Ok(Some(endpoint))),
        Err(fault) => Ok(Err(place(part, key, Stands::NoEndpoint(fault)))),
    }
}

/// The host and port under a key that has to be there.
#[tactic(auto, unfolding(crate::specs::Keys::endpoint_needed))]
pub(crate) fn needed_endpoint(
    alloc: Global,
    table: &Value,
    part: Part,
    key: NetworkKey,
) -> Result<Taken<Endpoint>, AllocError>
    ensures { IfOk result (λ endpoint. endpoint ≡ spec.endpoint_needed part key (view table.now)) }
{
    match endpoint_at(alloc, table, part, key)? {
        Ok(Some(endpoint)) => Ok(Ok(endpoint)),
        Ok(None) => Ok(Err(place(part, key, Stands::Missing))),
        Err(place) => Ok(Err(place)),
    }
}
