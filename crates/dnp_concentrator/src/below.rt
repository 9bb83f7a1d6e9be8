//! A concentrator's links to its substations.

ghost use Rattle.std.specs.Prelude.{◌≡◌, ◌<◌, Ok, Err, IfOk, OnErr, OnOk, MatchResult, if◌then◌else◌, length, option_map};
ghost use Rattle.dnp_appfragment.specs.Fragments.{IsRequest};
ghost use Rattle.dnp_eventbuf.specs.Sides.{ForEach};
ghost use Rattle.dnp_master.specs.Calls.{ask_answer};
ghost use Rattle.dnp_master.specs.Requests.{request_for};
ghost use Rattle.dnp_master.specs.State as master;
ghost use Rattle.dnp_concentrator.specs.Concentrator.{core_of, link_at, links_of, without_link, KeepsStores, SetsLink};
ghost use Rattle.dnp_concentrator.specs.Relaying as spec;

use crate::concentrator::Concentrator;
use dnp_master::{AskFault, Fragment, Task};

impl<Q, B> Concentrator<Q, B> {
    /// How many substations there are: the numbers below it are those of links below.
    pub fn substations(&self) -> usize
        ensures { result ≡ length (links_of self.now) }
    {
        self.links.len()
    }

    /// Whether the substation's master is open and awaits no response.
    pub fn idle_below(&self, substation: u8) -> bool
        requires { substation < length (links_of self.now) }
        ensures { result ≡ master.is_idle (link_at self.now substation).master }
    {
        self.links[usize::from(substation)].idle()
    }

    /// The id of the control in progress at the substation, if there is one.
    pub fn in_progress(&self, substation: u8) -> Option<u64>
        requires { substation < length (links_of self.now) }
        ensures { result ≡ option_map (λ p. p.id) (link_at self.now substation).progress }
    {
        self.links[usize::from(substation)].in_progress()
    }

    /// A connection to the substation was opened: its master is idle, whatever it was before, and no control is in
    /// progress there.
    pub fn opened_below(&mut self, substation: u8)
        requires { substation < length (links_of self.old) }
        ensures link { SetsLink self.old substation (spec.opened (link_at self.old substation)) self.new }
        ensures cores { ForEach (λ centre. core_of centre self.new ≡ core_of centre self.old) }
        ensures stores { KeepsStores self.old self.new }
    {
        self.links[usize::from(substation)].opened();
    }

    /// The readings above of this substation's points are marked lost, those that either centre is given.
    fn lose(&mut self, substation: u8)
        ensures cores { ForEach (λ centre. core_of centre self.new ≡ without_link (core_of centre self.old) substation) }
        ensures links { links_of self.new ≡ links_of self.old }
        ensures stores { KeepsStores self.old self.new }
    {
        let number = usize::from(substation);
        self.cores.first.points().mark_lost(number);
        self.cores.second.points().mark_lost(number);
    }

    /// The connection to the substation is gone: its master is closed, the control in progress there is forgotten, and
    /// the readings above of its points are marked lost.
    pub fn hung_up_below(&mut self, substation: u8)
        requires { substation < length (links_of self.old) }
        ensures link { SetsLink self.old substation (spec.hung_up (link_at self.old substation)) self.new }
        ensures cores { ForEach (λ centre. core_of centre self.new ≡ without_link (core_of centre self.old) substation) }
        ensures stores { KeepsStores self.old self.new }
    {
        self.links[usize::from(substation)].hung_up();
        self.lose(substation);
    }

    /// The moment, in milliseconds, at which the response timer of a link below ends; none while it doesn't run.
    pub fn next_deadline_below(&self, substation: u8) -> Option<u64>
        requires { substation < length (links_of self.now) }
        ensures { result ≡ master.next_deadline (link_at self.now substation).master }
    {
        self.links[usize::from(substation)].next_deadline()
    }

    /// The moment has come for a link below: where its response timer has ended, its master closes, and the readings
    /// above of its points are marked lost. Whether it has closed now.
    pub fn tick_below(&mut self, substation: u8, now: u64) -> bool
        requires { substation < length (links_of self.old) }
        ensures closes { result ≡ master.is_timed_out (link_at self.old substation).master now }
        ensures link { SetsLink self.old substation (spec.ticked (link_at self.old substation) now) self.new }
        ensures cores { ForEach (λ centre. core_of centre self.new ≡ (if result then without_link (core_of centre self.old) substation else core_of centre self.old)) }
        ensures stores { KeepsStores self.old self.new }
    {
        let has_closed = self.links[usize::from(substation)].tick(now);
        if has_closed {
            self.lose(substation);
        }
        has_closed
    }

    /// Asks the substation a task at this moment: the request, to be sent. Refused as `Master::ask` refuses it.
    ///
    /// Of what is asked here the book knows nothing. A control whose select stood is selected again.
    pub fn ask_below(&mut self, substation: u8, now: u64, task: Task) -> Result<Fragment, AskFault>
        requires { substation < length (links_of self.old) }
        ensures answer { MatchResult result (λ request. ask_answer (link_at self.old substation).master task ≡ Ok request.items)
            (λ fault. ask_answer (link_at self.old substation).master task ≡ Err fault) }
        ensures reads { IfOk result (λ request. IsRequest request.items (request_for (link_at self.old substation).master.seq task)) }
        ensures link { SetsLink self.old substation (spec.asking (link_at self.old substation) now task) self.new }
        ensures cores { ForEach (λ centre. core_of centre self.new ≡ core_of centre self.old) }
        ensures stores { KeepsStores self.old self.new }
    {
        self.links[usize::from(substation)].ask(now, task)
    }

    /// Asks the substation a task at this moment, as `ask_below` does, but the request, to be sent, is put into the caller's
    /// fragment, in place of what was there. A refusal leaves that as it was.
    pub fn ask_below_into(
        &mut self,
        request: &mut Fragment,
        substation: u8,
        now: u64,
        task: Task,
    ) -> Result<(), AskFault>
        requires { substation < length (links_of self.old) }
        ensures answer { MatchResult result (λ _. ask_answer (link_at self.old substation).master task ≡ Ok request.new.items)
            (λ fault. ask_answer (link_at self.old substation).master task ≡ Err fault) }
        ensures reads { OnOk result (IsRequest request.new.items (request_for (link_at self.old substation).master.seq task)) }
        ensures left { OnErr result (request.new ≡ request.old) }
        ensures link { SetsLink self.old substation (spec.asking (link_at self.old substation) now task) self.new }
        ensures cores { ForEach (λ centre. core_of centre self.new ≡ core_of centre self.old) }
        ensures stores { KeepsStores self.old self.new }
    {
        self.links[usize::from(substation)].ask_into(request, now, task)
    }
}
