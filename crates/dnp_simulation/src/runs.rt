//! A run of a network over its stores.

use crate::images::{DiskStore, File};
use crate::network::Network;
use crate::nodes::Nodes;
use crate::polled::{Layout, Pollings};
use crate::programs::{Below, Gathers, Keeps, Measures};
use crate::report::Outcome;
use crate::settings::Settings;
use crate::stations::Stations;
use crate::stores::{Store, StoreKind};
use dnp_concentrator::Plan;
use dnp_controls::{Book, PlainBook};
use dnp_eventbuf::{JournalStore, PairLanes, PlainJournal, PlainPair};
use dnp_nodes::{CentreNode, ConcentratorNode};
use dnp_store::{ControlBook, Journal, Queue};
use sqlite::FileStore;
use std::alloc::{AllocError, Global};

/// The nodes of a network over lists.
pub type PlainNodes = Stations<
    Below,
    ConcentratorNode<PlainPair, PlainBook>,
    CentreNode<PlainJournal, PlainBook>,
>;

/// Runs a network over these nodes, which have just begun, and gives what came of it.
///
/// # Errors
/// Out of memory.
pub fn simulate_over<N: Nodes>(
    alloc: Global,
    layout: Layout,
    settings: Settings,
    nodes: &mut N,
) -> Result<Outcome, AllocError> {
    let mut network = Network::new(alloc, layout, settings);
    network.run(nodes)
}

/// Runs a network of such nodes.
fn run_nodes<S: Measures, M: Gathers, T: Keeps>(
    alloc: Global,
    layout: Layout,
    settings: Settings,
) -> Result<Outcome, AllocError> {
    let mut nodes = Stations::<S, M, T>::new(alloc);
    nodes.begin(alloc, &layout)?;
    simulate_over(alloc, layout, settings, &mut nodes)
}

/// Runs a network over stores of these types. It makes a single call, since each one shows that the nodes over such stores are nodes.
fn run_over<Q: PairLanes + Store, J: JournalStore + Store, B: Book + Store>(
    alloc: Global,
    layout: Layout,
    settings: Settings,
) -> Result<Outcome, AllocError> {
    run_nodes::<Below, ConcentratorNode<Q, B>, CentreNode<J, B>>(alloc, layout, settings)
}

/// Runs a network over databases in stores of this kind. Generic, so that which disks these are on is of matter to its caller alone.
fn run_on_disks<S: DiskStore>(
    alloc: Global,
    layout: Layout,
    settings: Settings,
) -> Result<Outcome, AllocError> {
    run_over::<Queue<S>, Journal<S>, ControlBook<S>>(alloc, layout, settings)
}

/// Runs a network of this plan, whose links are polled so, by these settings, and gives what came of it.
///
/// # Errors
/// Out of memory.
pub fn simulate(
    alloc: Global,
    plan: Plan,
    pollings: Pollings,
    settings: Settings,
) -> Result<Outcome, AllocError> {
    let layout = Layout { plan, pollings };
    match settings.stores {
        StoreKind::Lists => run_over::<PlainPair, PlainJournal, PlainBook>(alloc, layout, settings),
        StoreKind::Disks => run_on_disks::<FileStore<File>>(alloc, layout, settings),
    }
}
