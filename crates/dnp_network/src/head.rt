//! Where the concentrator is.

ghost use Rattle.std.specs.Prelude.{◌≡◌, IfOk};
ghost use Rattle.std.specs.Option.{unwrap_or};
ghost use Rattle.toml.specs.View.{view};
ghost use Rattle.dnp_network.specs.Keys.{endpoint_under};
ghost use Rattle.dnp_network.specs.Networks as spec;

use crate::endpoint::{Endpoint, Host};
use crate::keys::{Taken, address_at, endpoint_at, is_there, own_fault, unknown_fault};
use crate::network::Head;
use crate::place::{NetworkKey, NetworkPlace, Part, Stands, place};
use std::alloc::{AllocError, Global};
use toml::Value;

/// Where it listens unless another place is given.
fn usual_listen() -> Endpoint
    ensures { result ≡ spec.usual_listen }
{
    Endpoint {
        host: Host::V4([127, 0, 0, 1]),
        port: 20_100,
    }
}

/// Where it listens, if a place is given, and else where it does so usually.
fn or_usual(listen: Option<Endpoint>) -> Endpoint
    ensures { result ≡ unwrap_or listen spec.usual_listen }
{
    match listen {
        Some(listen) => listen,
        None => usual_listen(),
    }
}

/// The concentrator of a text that says nothing of it.
fn usual_head() -> Head
    ensures { result ≡ spec.usual_head }
{
    Head {
        listen: usual_listen(),
        listen2: None,
        at: None,
        at2: None,
        address: 9,
        centre: 1,
        centre2: 3,
    }
}

/// Where something is said of a second centre, where there is none.
fn alone_fault(table: &Value) -> Option<NetworkPlace>
    ensures { result ≡ spec.alone_fault (view table.now) }
{
    if is_there(table, NetworkKey::At2) {
        return Some(place(Part::Concentrator, NetworkKey::At2, Stands::Alone));
    }
    if is_there(table, NetworkKey::Centre2) {
        return Some(place(Part::Concentrator, NetworkKey::Centre2, Stands::Alone));
    }
    None
}

/// What is wrong with what is said of the second centre.
fn second_fault(
    table: &Value,
    listen2: &Option<Endpoint>,
    address: u16,
    centre2: u16,
) -> Option<NetworkPlace>
    ensures { result ≡ spec.second_fault listen2.now (view table.now) address centre2 }
{
    match listen2 {
        Some(_) => own_fault(Part::Concentrator, NetworkKey::Centre2, address, centre2),
        None => alone_fault(table),
    }
}

/// What is wrong with the keys of the concentrator beside their values.
fn head_fault(
    table: &Value,
    listen2: &Option<Endpoint>,
    address: u16,
    centre: u16,
    centre2: u16,
) -> Option<NetworkPlace>
    ensures { result ≡ spec.head_fault (view table.now) listen2.now address centre centre2 }
{
    unknown_fault(table, Part::Concentrator)
        .or(own_fault(Part::Concentrator, NetworkKey::Centre, address, centre))
        .or(second_fault(table, listen2, address, centre2))
}

/// The host and port under a key of the concentrator.
fn here(
    alloc: Global,
    table: &Value,
    key: NetworkKey,
) -> Result<Taken<Option<Endpoint>>, AllocError>
    ensures { IfOk result (λ endpoint. endpoint ≡ endpoint_under spec.concentrator_part key (view table.now)) }
{
    endpoint_at(alloc, table, Part::Concentrator, key)
}

/// The concentrator that a table says.
#[tactic(auto, unfolding(crate::specs::Networks::head_in))]
fn head_in(alloc: Global, table: &Value) -> Result<Taken<Head>, AllocError>
    ensures { IfOk result (λ head. head ≡ spec.head_in (view table.now)) }
{
    let listen = match here(alloc, table, NetworkKey::Listen)? {
        Ok(listen) => listen,
        Err(place) => return Ok(Err(place)),
    };
    let listen2 = match here(alloc, table, NetworkKey::Listen2)? {
        Ok(listen2) => listen2,
        Err(place) => return Ok(Err(place)),
    };
    let at = match here(alloc, table, NetworkKey::At)? {
        Ok(at) => at,
        Err(place) => return Ok(Err(place)),
    };
    let at2 = match here(alloc, table, NetworkKey::At2)? {
        Ok(at2) => at2,
        Err(place) => return Ok(Err(place)),
    };
    let address = match address_at(table, Part::Concentrator, NetworkKey::Address, 9) {
        Ok(address) => address,
        Err(place) => return Ok(Err(place)),
    };
    let centre = match address_at(table, Part::Concentrator, NetworkKey::Centre, 1) {
        Ok(centre) => centre,
        Err(place) => return Ok(Err(place)),
    };
    let centre2 = match address_at(table, Part::Concentrator, NetworkKey::Centre2, 3) {
        Ok(centre2) => centre2,
        Err(place) => return Ok(Err(place)),
    };
    if let Some(place) = head_fault(table, &listen2, address, centre, centre2) {
        return Ok(Err(place));
    }
    Ok(Ok(Head {
        listen: or_usual(listen),
        listen2,
        at,
        at2,
        address,
        centre,
        centre2,
    }))
}

/// The concentrator that the text of a network says.
#[tactic(auto, unfolding(crate::specs::Networks::head_under))]
pub(crate) fn head_at(alloc: Global, table: &Value) -> Result<Taken<Head>, AllocError>
    ensures { IfOk result (λ head. head ≡ spec.head_under (view table.now)) }
{
    let Some(value) = table.get("concentrator") else {
        return Ok(Ok(usual_head()));
    };
    if !value.is_table() {
        return Ok(Err(place(Part::Whole, NetworkKey::Concentrator, Stands::of(value))));
    }
    head_in(alloc, value)
}
