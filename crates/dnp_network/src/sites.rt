//! Where the substations are.

ghost use Rattle.std.specs.Prelude.{◌≡◌, ◌<◌, ◌≤◌, length, IfOk};
ghost use Rattle.toml.specs.View.{array_view, view};
ghost use Rattle.dnp_network.specs.declared.place.TheConstants.{MAX_SITES};
ghost use Rattle.dnp_network.specs.Keys.{finished};
ghost use Rattle.dnp_network.specs.Networks as spec;

use crate::keys::{
    Taken, address_at, endpoint_at, needed_endpoint, own_fault, unknown_fault, words_at,
};
use crate::listed::Listed;
use crate::network::Site;
use crate::place::{NetworkKey, NetworkPlace, Part, Stands, place};
use crate::polling::{Below, polling_at};
use crate::twice::site_twice;
use std::alloc::{AllocError, Global};
use toml::Value;
use toml::value::Array;

/// What is wrong with the keys of a substation beside their values.
fn site_fault(table: &Value, number: usize, address: u16, master: u16) -> Option<NetworkPlace>
    ensures { result ≡ spec.site_fault number (view table.now) address master }
{
    let part = Part::Substation(number);
    unknown_fault(table, part).or(own_fault(part, NetworkKey::Master, address, master))
}

/// The substation with this number that a table says.
#[tactic(auto, unfolding(crate::specs::Networks::site_in))]
fn site_in(
    alloc: Global,
    table: &Value,
    number: usize,
    below: &Below,
) -> Result<Taken<Site>, AllocError>
    requires { number < MAX_SITES }
    ensures { IfOk result (λ site. site ≡ spec.site_in below.now number (view table.now)) }
{
    let part = Part::Substation(number);
    let at = match needed_endpoint(alloc, table, part, NetworkKey::At)? {
        Ok(at) => at,
        Err(place) => return Ok(Err(place)),
    };
    let name = match words_at(alloc, table, part, NetworkKey::Name)? {
        Ok(name) => name,
        Err(place) => return Ok(Err(place)),
    };
    let listen = match endpoint_at(alloc, table, part, NetworkKey::Listen)? {
        Ok(listen) => listen,
        Err(place) => return Ok(Err(place)),
    };
    let usual = number as u16 + 10;
    let address = match address_at(table, part, NetworkKey::Address, usual) {
        Ok(address) => address,
        Err(place) => return Ok(Err(place)),
    };
    let master = match address_at(table, part, NetworkKey::Master, 2) {
        Ok(master) => master,
        Err(place) => return Ok(Err(place)),
    };
    let polling = match polling_at(table, part, below) {
        Ok(polling) => polling,
        Err(place) => return Ok(Err(place)),
    };
    if let Some(place) = site_fault(table, number, address, master) {
        return Ok(Err(place));
    }
    Ok(Ok(Site {
        at,
        name,
        listen,
        address,
        master,
        polling,
    }))
}

/// The substation with this number that an item of the list says.
fn site_of(
    alloc: Global,
    item: &Value,
    number: usize,
    below: &Below,
) -> Result<Taken<Site>, AllocError>
    requires { number < MAX_SITES }
    ensures { IfOk result (λ site. site ≡ spec.site_of below.now number (view item.now)) }
{
    if !item.is_table() {
        return Ok(Err(place(
            Part::Substation(number),
            NetworkKey::Substation,
            Stands::of(item),
        )));
    }
    site_in(alloc, item, number, below)
}

/// Puts the substation with this number that an item of the list says behind those before it; or tells what is wrong with it.
fn grow(
    alloc: Global,
    all: &mut Vec<Site>,
    item: &Value,
    number: usize,
    below: &Below,
) -> Result<Option<NetworkPlace>, AllocError>
    requires { number < MAX_SITES }
    ensures { IfOk result (λ wrong. finished wrong all.new.items ≡ spec.grown below.now number all.old.items (view item.now)) }
{
    let site = match site_of(alloc, item, number, below)? {
        Ok(site) => site,
        Err(place) => return Ok(Some(place)),
    };
    if let Some(place) = site_twice(number, &site, all.as_slice()) {
        return Ok(Some(place));
    }
    match all.push(site) {
        Ok(()) => Ok(None),
        Err(_) => Err(AllocError),
    }
}

/// The substations that a list says.
#[tactic(auto, using(crate::proofs::Lists::site_more, crate::proofs::Lists::site_wrong, crate::proofs::Lists::sites_all))]
fn sites_from(
    alloc: Global,
    items: &Array,
    below: &Below,
) -> Result<Taken<Listed<Site>>, AllocError>
    requires { length items.now.items ≤ MAX_SITES }
    ensures { IfOk result (λ sites. sites ≡ spec.sites_said below.now (array_view items.now)) }
{
    let mut all = Vec::new(alloc);
    for (number, item) in items.iter().enumerate() {
        if let Some(place) = grow(alloc, &mut all, item, number, below)? {
            return Ok(Err(place));
        }
    }
    Ok(Ok(Listed::new(all)))
}

/// The substations that a list says, as many as the plan has.
#[tactic(auto, using(crate::proofs::Lists::items_counted))]
fn sites_of(
    alloc: Global,
    items: &Array,
    count: usize,
    below: &Below,
) -> Result<Taken<Listed<Site>>, AllocError>
    requires { count ≤ MAX_SITES }
    ensures { IfOk result (λ sites. sites ≡ spec.sites_of below.now count (array_view items.now)) }
{
    if items.len() != count {
        return Ok(Err(place(
            Part::Whole,
            NetworkKey::Substation,
            Stands::Count(items.len(), count),
        )));
    }
    sites_from(alloc, items, below)
}

/// The substations that the text of a network says for a plan of so many.
#[tactic(auto, unfolding(crate::specs::Networks::sites_under))]
pub(crate) fn sites_at(
    alloc: Global,
    table: &Value,
    count: usize,
    below: &Below,
) -> Result<Taken<Listed<Site>>, AllocError>
    requires { count ≤ MAX_SITES }
    ensures { IfOk result (λ sites. sites ≡ spec.sites_under below.now count (view table.now)) }
{
    let Some(value) = table.get("substation") else {
        return Ok(Err(place(Part::Whole, NetworkKey::Substation, Stands::Missing)));
    };
    match value.as_array() {
        Some(items) => sites_of(alloc, items, count, below),
        None => Ok(Err(place(Part::Whole, NetworkKey::Substation, Stands::of(value)))),
    }
}
