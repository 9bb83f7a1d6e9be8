//! Tasks that are asked on a link, step by step.

ghost use Rattle.std.specs.Prelude.{◌≡◌, ◌+◌, ◌<◌, [], ◌∷◌, false, true, length};
ghost use Rattle.dnp_linkframe.specs.declared.frame.Frame.{Frame as FrameValue};
ghost use Rattle.dnp_streams.specs.links.Links.{HasRoom};
ghost use Rattle.dnp_streams.specs.streams.Dialogues.{Begins, Goes, HearsAsking};

use crate::link::{Link, StepRoom};
use crate::stream::agenda::Agenda;
use crate::stream::asker::Asker;
use crate::stream::log::Log;
use crate::stream::station::Station;
use dnp_line::Port;
use dnp_master::Task;
use std::alloc::Global;

/// A dialogue: tasks that are asked on a link.
#[derive(Drop)]
pub(super) struct Dialogue<'a> {
    /// The link of the station that asks.
    pub link: Link,
    /// Room for the link's steps.
    pub room: StepRoom,
    /// The tasks that are left, and what came of the others.
    pub agenda: Agenda<'a>,
    /// What was asked of the reader and the writer.
    pub log: Log,
}

impl<'a> Dialogue<'a> {
    ghost use Rattle.dnp_streams.specs.links.Links.{new_link};
    ghost use Rattle.dnp_streams.specs.steps.Asking.{HasPlace, IsFresh, StepsOn};
    ghost use Rattle.dnp_streams.specs.streams.Logs.{new_log};

    /// These tasks on a new link through this port: nothing was done yet.
    pub fn new(alloc: Global, port: Port, tasks: &'a [Task]) -> Dialogue<'a>
        ensures link { result.link ≡ new_link port }
        ensures left { result.agenda.left.now ≡ tasks.now }
        ensures fresh { IsFresh result.agenda }
        ensures log { result.log ≡ new_log }
    {
        Dialogue {
            link: Link::new(alloc, port),
            room: StepRoom::new(alloc),
            agenda: Agenda::new(alloc, tasks),
            log: Log::new(),
        }
    }

    /// Opens the station.
    pub fn open<S: Station>(&mut self, station: &mut S, now: u64)
        requires room { HasRoom self.old.link }
        requires place { HasPlace self.old.agenda.asked }
        ensures kept { S.kept station.new ≡ S.kept station.old }
        ensures held { S.honest station.new → S.honest station.old }
        ensures opened { S.honest station.new → StepsOn (λ d sent d'. Begins S.opens now d sent d') [] (S.state station.old) self.old (S.state station.new) self.new }
        ensures begun { self.new.agenda.is_begun ≡ true }
        ensures waiting { self.new.link.waiting ≡ self.old.link.waiting }
        ensures log { self.new.log ≡ self.old.log }
    {
        self.agenda.is_begun = true;
        let told = self.link.opened(&mut self.room, station, now);
        self.agenda.tell(told);
    }

    /// Hears the next frame.
    pub fn hear<S: Station>(&mut self, station: &mut S, now: u64)
        requires room { HasRoom self.old.link }
        requires frame { 0 < length self.old.link.waiting }
        requires place { HasPlace self.old.agenda.asked }
        requires goes_on { self.old.agenda.is_over ≡ false }
        ensures kept { S.kept station.new ≡ S.kept station.old }
        ensures held { S.honest station.new → S.honest station.old }
        ensures heard { S.honest station.new → (frame : FrameValue) × StepsOn (λ d sent d'. HearsAsking S.receives now d frame sent d') (frame ∷ [])
            (S.state station.old) self.old (S.state station.new) self.new }
        ensures begun { self.new.agenda.is_begun ≡ self.old.agenda.is_begun }
        ensures fewer { length self.old.link.waiting ≡ length self.new.link.waiting + 1 }
        ensures log { self.new.log ≡ self.old.log }
    {
        let heard = self.link.hear(&mut self.room, station, now);
        self.agenda.tell_heard(heard);
    }

    /// Asks the first of the tasks that are left, or relays a control where there is none.
    pub fn go<S: Asker>(&mut self, station: &mut S, now: u64)
        requires { HasRoom self.old.link }
        ensures kept { S.kept station.new ≡ S.kept station.old }
        ensures held { S.honest station.new → S.honest station.old }
        ensures goes { S.honest station.new → self.old.agenda.is_over ≡ false → StepsOn (λ d sent d'. Goes S.asking now d sent d') []
            (S.state station.old) self.old (S.state station.new) self.new }
        ensures begun { self.new.agenda.is_begun ≡ self.old.agenda.is_begun }
        ensures waiting { self.new.link.waiting ≡ self.old.link.waiting }
        ensures log { self.new.log ≡ self.old.log }
    {
        match self.agenda.left.split_first() {
            Some((task, left)) => {
                self.agenda.left = left;
                let asked = self.link.ask(&mut self.room, station, now, *task);
                self.agenda.tell_asked(asked);
            }
            None => {
                let relayed = self.link.relay(&mut self.room, station, now);
                self.agenda.tell_relayed(relayed);
            }
        }
    }
}
