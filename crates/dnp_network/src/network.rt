//! Where the stations of a plan are, read from its text.

ghost use Rattle.std.specs.Prelude.{◌≡◌, ◌≤◌, IfErr, IfOk, Option, Result};
ghost use Rattle.toml.specs.View.{view};
ghost use Rattle.dnp_network.specs.declared.place.TheConstants.{MAX_SITES};
ghost use Rattle.dnp_network.specs.Networks as spec;

use crate::endpoint::Endpoint;
use crate::head::head_at;
use crate::keys::{Taken, unknown_fault, words_at};
use crate::listed::Listed;
use crate::place::{NetworkKey, NetworkPlace, Part};
use crate::polling::{Polling, tables_at};
use crate::sites::sites_at;
use crate::twice::head_twice;
use crate::words::Words;
use std::alloc::{AllocError, Global};
use toml::Value;

/// Where a substation is.
#[derive(Debug, Drop)]
pub struct Site {
    /// Where the concentrator finds it.
    pub at: Endpoint,
    /// What people call it.
    pub name: Option<Words>,
    /// Where it listens, if that isn't where it is found.
    pub listen: Option<Endpoint>,
    /// Its link address.
    pub address: u16,
    /// The link address of its master.
    pub master: u16,
    /// How it is polled.
    pub polling: Polling,
}

/// Where the concentrator is.
#[derive(Debug, Drop)]
pub struct Head {
    /// Where it listens for the first centre.
    pub listen: Endpoint,
    /// Where it listens for the second centre, if there is one.
    pub listen2: Option<Endpoint>,
    /// Where the first centre finds it, if that isn't where it listens.
    pub at: Option<Endpoint>,
    /// The same of the second centre.
    pub at2: Option<Endpoint>,
    /// Its link address towards the centres.
    pub address: u16,
    /// The link address of the first centre.
    pub centre: u16,
    /// The link address of the second centre.
    pub centre2: u16,
}

/// Where the stations of a plan are.
#[derive(Debug, Drop)]
pub struct Network {
    /// What people call it.
    pub name: Option<Words>,
    /// The path of the file that says what people call its points.
    pub points: Option<Words>,
    /// The concentrator.
    pub concentrator: Head,
    /// How the concentrator is polled by each centre.
    pub centre_polling: Polling,
    /// The substations, each at the place of its number.
    pub substations: Listed<Site>,
}

/// Why a text says no network.
#[derive(Clone, Copy, Debug)]
pub enum NetworkFault {
    /// The text is no TOML.
    Syntax,
    /// This is the first place that is wrong.
    Wrong(NetworkPlace),
    /// Out of memory.
    Memory,
}

/// A request for memory that was refused.
impl From<AllocError> for NetworkFault {
    ghost use Rattle.std.specs.Prelude.{◌≡◌};
    ghost use Rattle.dnp_network.specs.declared.network.NetworkFault.TheVariants as faults;

    ghost from_gives = { λ _ fault. fault ≡ faults.Memory };

    fn from(_: AllocError) -> NetworkFault {
        NetworkFault::Memory
    }
}

impl Site {
    ghost use Rattle.std.specs.Prelude.{◌≡◌};
    ghost use Rattle.std.specs.Option.{unwrap_or};

    /// Where it listens: where it is found, unless another place is given.
    pub fn listen(&self) -> &Endpoint
        ensures { result.now ≡ unwrap_or self.now.listen self.now.at }
    {
        match &self.listen {
            Some(listen) => listen,
            None => &self.at,
        }
    }
}

impl Head {
    ghost use Rattle.std.specs.Prelude.{◌≡◌, option_copied};
    ghost use Rattle.dnp_network.specs.Networks.{at_of, at2_of};

    /// Where the first centre finds it: where it listens, unless another place is given.
    pub fn at(&self) -> &Endpoint
        ensures { result.now ≡ at_of self.now }
    {
        match &self.at {
            Some(at) => at,
            None => &self.listen,
        }
    }

    /// The same of the second centre, if there is one.
    pub fn at2(&self) -> Option<&Endpoint>
        ensures { option_copied result ≡ at2_of self.now }
    {
        match &self.at2 {
            Some(at2) => Some(at2),
            None => self.listen2.as_ref(),
        }
    }
}

/// The network that a table says, for a plan of so many substations and so many milliseconds for a fragment of a response.
#[tactic(auto, unfolding(crate::specs::Networks::network_of))]
fn network_at(
    alloc: Global,
    table: &Value,
    count: usize,
    response_ms: u64,
) -> Result<Taken<Network>, AllocError>
    requires { count ≤ MAX_SITES }
    ensures { IfOk result (λ network. network ≡ spec.network_of count response_ms (view table.now)) }
{
    let name = match words_at(alloc, table, Part::Whole, NetworkKey::Name)? {
        Ok(name) => name,
        Err(place) => return Ok(Err(place)),
    };
    let points = match words_at(alloc, table, Part::Whole, NetworkKey::Points)? {
        Ok(points) => points,
        Err(place) => return Ok(Err(place)),
    };
    let concentrator = match head_at(alloc, table)? {
        Ok(head) => head,
        Err(place) => return Ok(Err(place)),
    };
    let tables = match tables_at(table, response_ms) {
        Ok(tables) => tables,
        Err(place) => return Ok(Err(place)),
    };
    let substations = match sites_at(alloc, table, count, &tables.below)? {
        Ok(sites) => sites,
        Err(place) => return Ok(Err(place)),
    };
    let wrong = unknown_fault(table, Part::Whole).or(head_twice(
        &concentrator,
        substations.as_slice(),
    ));
    match wrong {
        Some(place) => Ok(Err(place)),
        None => Ok(Ok(Network {
            name,
            points,
            concentrator,
            centre_polling: tables.centre,
            substations,
        })),
    }
}

/// Reads from TOML where the stations of a plan of so many substations are, and how they are polled. By the plan a fragment of a
/// response may take so many milliseconds. Each substation of the plan has its `at`; each other key has a value that it stands for
/// where it is missing.
///
/// # Errors
///
/// The text is no TOML; or the first place at which it is wrong, in the order of the keys of the whole network, those of the
/// concentrator, those of polling for all substations and for the centres, and those of each substation, keys that no network has,
/// and then what stands twice.
#[tactic(auto, unfolding(crate::specs::Networks::network_said))]
pub fn read_network(
    alloc: Global,
    text: &str,
    count: usize,
    response_ms: u64,
) -> Result<Network, NetworkFault>
    requires { count ≤ MAX_SITES }
    ensures read { IfOk result (λ network. spec.network_said count response_ms text.now ≡ Option.Some (Result.Ok network)) }
    ensures refused { IfErr result (spec.IsRefusedFor count response_ms text.now) }
{
    let table = match toml::table_from_str(alloc, text) {
        Ok(table) => Value::Table(table),
        Err(fault) if fault.is_memory() => return Err(NetworkFault::Memory),
        Err(_) => return Err(NetworkFault::Syntax),
    };
    match network_at(alloc, &table, count, response_ms)? {
        Ok(network) => Ok(network),
        Err(place) => Err(NetworkFault::Wrong(place)),
    }
}
