//! The stores of a network's concentrator and centres: lists, or databases on simulated disks.

use crate::disk::Order;
use crate::images::{DiskStore, Image};
use crate::restarts::{Beginning, Restart};
use dnp_concentrator::Plan;
use dnp_controls::PlainBook;
use dnp_eventbuf::{PlainJournal, PlainPair};
use dnp_store::{ControlBook, Journal, OpenFault, Queue};
use sqlite::{Alter, Connection};
use std::alloc::Global;

/// What the stores of a network are.
#[derive(Clone, Copy)]
pub enum StoreKind {
    /// Lists.
    Lists,
    /// Databases on simulated disks.
    Disks,
}

/// A store that has begun again, or a node over two such stores.
#[derive(Drop)]
pub struct Begun<T> {
    /// The store.
    pub store: T,
    /// How it began.
    pub how: Beginning,
}

/// A store of a simulated process. A list is handed on as it stands where its process begins again.
pub trait Store: Drop + Sized {
    /// Makes an empty one. `None` if there is no memory for it, or the plan doesn't keep its limits.
    fn created(alloc: Global, plan: &Plan) -> Option<Self>;

    /// Begins again over what is left of it. `None` if there is no memory for it.
    fn again(self, _alloc: Global, _plan: &Plan, _restart: Restart) -> Option<Begun<Self>> {
        Some(Begun {
            store: self,
            how: Beginning::Opened,
        })
    }
}

impl Store for PlainPair {
    fn created(alloc: Global, plan: &Plan) -> Option<PlainPair> {
        if plan.keeps_limits() {
            PlainPair::new(alloc, plan.queue, plan.queue2).ok()
        } else {
            None
        }
    }
}

impl Store for PlainJournal {
    fn created(alloc: Global, _plan: &Plan) -> Option<PlainJournal> {
        Some(PlainJournal::new(alloc))
    }
}

impl Store for PlainBook {
    fn created(alloc: Global, _plan: &Plan) -> Option<PlainBook> {
        Some(PlainBook::new(alloc))
    }
}

/// A store in a database, over connections of this type.
trait Stored<C>: Sized {
    /// Makes an empty one.
    fn create(alloc: Global, conn: C, plan: &Plan) -> Result<Self, (OpenFault, C)>;

    /// Opens the one that the database holds.
    fn open(alloc: Global, conn: C) -> Result<Self, (OpenFault, C)>;
}

/// Makes a store over new files. `None` if there is no memory for it, or the plan doesn't keep its limits.
fn created<S: DiskStore, T: Stored<Connection<S>>>(alloc: Global, plan: &Plan) -> Option<T> {
    match S::opened(alloc, &Image::empty(alloc), Restart::whole(0)) {
        Ok(conn) => T::create(alloc, conn, plan).ok(),
        Err(_) => None,
    }
}

/// Opens the store in files with these octets. Where it does not open, gives what the files hold then, if there is memory for it.
fn opened<S: DiskStore, T: Stored<Connection<S>>>(
    alloc: Global,
    image: &Image,
    restart: Restart,
) -> Result<T, Option<Image>> {
    match S::opened(alloc, image, restart) {
        Ok(conn) => match T::open(alloc, conn) {
            Ok(store) => Ok(store),
            Err((_, conn)) => Err(conn.into_store().left(alloc, restart)),
        },
        Err(left) => Err(left),
    }
}

/// Opens the store in files with these octets over a disk that does not fail. Where it does not open, a new one stands for it.
fn opened_soundly<S: DiskStore, T: Stored<Connection<S>>>(
    alloc: Global,
    plan: &Plan,
    image: &Image,
    restart: Restart,
    how: Beginning,
) -> Option<Begun<T>> {
    match opened::<S, T>(alloc, image, restart.over(Order::NONE)) {
        Ok(store) => Some(Begun { store, how }),
        Err(_) => match created::<S, T>(alloc, plan) {
            Some(store) => Some(Begun {
                store,
                how: Beginning::Spoilt,
            }),
            None => None,
        },
    }
}

/// A store begins again over what its connection's files hold. `None` if there is no memory for it.
fn again<S: DiskStore, T: Stored<Connection<S>>>(
    alloc: Global,
    plan: &Plan,
    conn: Connection<S>,
    restart: Restart,
) -> Option<Begun<T>> {
    let image = conn.into_store().left(alloc, restart.first())?;
    if !restart.order.fails() {
        return opened_soundly::<S, T>(alloc, plan, &image, restart, Beginning::Opened);
    }
    match opened::<S, T>(alloc, &image, restart) {
        Ok(store) => Some(Begun {
            store,
            how: Beginning::Opened,
        }),
        Err(Some(image)) => {
            opened_soundly::<S, T>(alloc, plan, &image, restart, Beginning::Failed)
        }
        Err(None) => None,
    }
}

impl<S: Alter> Stored<Connection<S>> for Queue<S> {
    fn create(
        alloc: Global,
        conn: Connection<S>,
        plan: &Plan,
    ) -> Result<Self, (OpenFault, Connection<S>)> {
        if !plan.keeps_limits() {
            return Err((OpenFault::WrongForm, conn));
        }
        Queue::create(alloc, conn, plan.queue, plan.queue2)
    }

    fn open(alloc: Global, conn: Connection<S>) -> Result<Self, (OpenFault, Connection<S>)> {
        Queue::open(alloc, conn)
    }
}

impl<S: Alter> Stored<Connection<S>> for Journal<S> {
    fn create(
        _alloc: Global,
        conn: Connection<S>,
        _plan: &Plan,
    ) -> Result<Self, (OpenFault, Connection<S>)> {
        Journal::create(conn)
    }

    fn open(alloc: Global, conn: Connection<S>) -> Result<Self, (OpenFault, Connection<S>)> {
        Journal::open(alloc, conn)
    }
}

impl<S: Alter> Stored<Connection<S>> for ControlBook<S> {
    fn create(
        alloc: Global,
        conn: Connection<S>,
        _plan: &Plan,
    ) -> Result<Self, (OpenFault, Connection<S>)> {
        ControlBook::create(alloc, conn)
    }

    fn open(alloc: Global, conn: Connection<S>) -> Result<Self, (OpenFault, Connection<S>)> {
        ControlBook::open(alloc, conn)
    }
}

impl<S: DiskStore> Store for Queue<S> {
    fn created(alloc: Global, plan: &Plan) -> Option<Self> {
        created::<S, Self>(alloc, plan)
    }

    fn again(self, alloc: Global, plan: &Plan, restart: Restart) -> Option<Begun<Self>> {
        again::<S, Self>(alloc, plan, self.into_connection(), restart)
    }
}

impl<S: DiskStore> Store for Journal<S> {
    fn created(alloc: Global, plan: &Plan) -> Option<Self> {
        created::<S, Self>(alloc, plan)
    }

    fn again(self, alloc: Global, plan: &Plan, restart: Restart) -> Option<Begun<Self>> {
        again::<S, Self>(alloc, plan, self.into_connection(), restart)
    }
}

impl<S: DiskStore> Store for ControlBook<S> {
    fn created(alloc: Global, plan: &Plan) -> Option<Self> {
        created::<S, Self>(alloc, plan)
    }

    fn again(self, alloc: Global, plan: &Plan, restart: Restart) -> Option<Begun<Self>> {
        again::<S, Self>(alloc, plan, self.into_connection(), restart)
    }
}
