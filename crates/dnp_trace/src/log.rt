//! What units did on the lines of a system, in the order in which it happened.
ghost use Rattle.std.specs.Prelude.{◌≡◌, [], ◌∷◌, ◌++◌, false};
ghost use Rattle.std.specs.Option.{option_map};
ghost use Rattle.dnp_trace.specs.Logs as spec;
ghost use Rattle.dnp_trace.specs.Logs.{nothing_yet, line_number, later, begun, sent as sent_on, with_step, came_to, times, counted, shown, stood, settled, turned, carried_on, count_on, front_place, front_unit};

use crate::noted::{Course, Standing, Step, Unit, What, Words, count_of, place_of, see, take_off};
use std::alloc::Global;
use std::marker::Model;

/// What units did on the lines of a system. Who watches the system notes it event by event: what stands on each line, and
/// what becomes of the front unit.
#[derive(Drop)]
pub struct Log {
    /// Where memory is asked for.
    alloc: Global,
    /// The moment, in milliseconds.
    moment: u64,
    /// How many substations the system has.
    substations: u8,
    /// The units that stand on lines, in the order in which they were sent.
    standing: Vec<Standing>,
    /// The number of the line whose units are being carried, if one's are.
    carrying: Option<usize>,
    /// The units that were sent.
    units: Vec<Unit>,
    /// The script's lines that began.
    lines: Vec<Words>,
    /// What happened.
    steps: Vec<Step>,
    /// Whether memory ran out, so that something is missing.
    cut: bool,
}

impl Model for Log {
    ghost use Rattle.dnp_trace.specs.Logs.{Noted};

    ghost Value = { Noted };

    ghost view = { λ log. record {
      moment = log.moment;
      substations = log.substations;
      standing = log.standing.items;
      carrying = log.carrying;
      units = log.units.items;
      lines = log.lines.items;
      steps = log.steps.items;
      cut = log.cut;
    } };
}

impl Log {
    /// Nothing has happened in a system of so many substations.
    pub fn new(alloc: Global, substations: u8) -> Log
        ensures { result ≡ nothing_yet substations }
    {
        Log {
            alloc,
            moment: 0,
            substations,
            standing: Vec::new(alloc),
            carrying: None,
            units: Vec::new(alloc),
            lines: Vec::new(alloc),
            steps: Vec::new(alloc),
            cut: false,
        }
    }

    /// How many substations the system has.
    pub(crate) fn substations(&self) -> u8
        ensures { result ≡ self.now.substations }
    {
        self.substations
    }

    /// The units that were sent.
    pub(crate) fn units(&self) -> &[Unit]
        ensures { result.now ≡ self.now.units }
    {
        self.units.as_slice()
    }

    /// The script's lines that began.
    pub(crate) fn lines(&self) -> &[Words]
        ensures { result.now ≡ self.now.lines }
    {
        self.lines.as_slice()
    }

    /// What happened.
    pub(crate) fn steps(&self) -> &[Step]
        ensures { result.now ≡ self.now.steps }
    {
        self.steps.as_slice()
    }

    /// Whether memory ran out, so that something is missing.
    pub(crate) fn is_cut(&self) -> bool
        ensures { result ≡ self.now.cut }
    {
        self.cut
    }

    /// Notes what happened.
    fn note(&mut self, step: Step)
        ensures { self.new.cut ≡ false → self.new ≡ with_step step self.old }
    {
        if self.steps.push(step).is_err() {
            self.cut = true;
        }
    }

    /// So many milliseconds pass, up to the moment u64::MAX.
    pub fn pass(&mut self, ms: u64)
        ensures { self.new ≡ later ms self.old }
    {
        self.moment = self.moment.saturating_add(ms);
    }

    /// A line of the script begins. Nothing else that was noted changes.
    pub fn begin_line(&mut self, text: &str)
        ensures { self.new.cut ≡ false → self.new ≡ begun text.now self.old }
    {
        let line = self.lines.len();
        let moment = self.moment;
        self.keep_line(text);
        self.note(Step::Line { moment, line });
    }

    /// Keeps a line of the script.
    fn keep_line(&mut self, text: &str)
        ensures { self.new.cut ≡ false → self.new ≡ record self.old { lines = self.old.lines ++ text.now ∷ [] } }
    {
        let kept = match Vec::from_slice(self.alloc, text.as_bytes()) {
            Ok(text) => self.lines.push(Words { text }).is_ok(),
            Err(_) => false,
        };
        if !kept {
            self.cut = true;
        }
    }

    /// How many units stand on a line, by what was noted.
    pub fn standing(&self, course: Course) -> usize
        ensures { result ≡ count_on (line_number course) self.now }
    {
        self.count_on(course.number())
    }

    /// How many units stand on the line of this number.
    fn count_on(&self, line: usize) -> usize
        ensures { result ≡ count_on line self.now }
    {
        count_of(self.standing.as_slice(), line)
    }

    /// A unit is sent. Where its octets aren't known yet, there are none.
    fn sent(&mut self, course: Course, octets: &[u8])
        ensures { self.new.cut ≡ false → self.new ≡ sent_on course octets.now self.old }
    {
        let unit = self.units.len();
        let moment = self.moment;
        self.keep_unit(course, octets);
        self.put_on(course.number(), unit);
        let what = What::Sent;
        self.note(Step::Unit { moment, what, unit });
    }

    /// Keeps a unit.
    fn keep_unit(&mut self, course: Course, octets: &[u8])
        ensures { self.new.cut ≡ false → self.new ≡ record self.old { units = self.old.units ++ record { course = course; octets = octets.now } ∷ [] } }
    {
        let kept = match Vec::from_slice(self.alloc, octets) {
            Ok(octets) => self.units.push(Unit { course, octets }).is_ok(),
            Err(_) => false,
        };
        if !kept {
            self.cut = true;
        }
    }

    /// The unit stands on the line of this number, after those that stand there.
    fn put_on(&mut self, line: usize, unit: usize)
        ensures { self.new.cut ≡ false → self.new ≡ record self.old { standing = self.old.standing ++ record { line = line; unit = unit } ∷ [] } }
    {
        if self.standing.push(Standing { line, unit }).is_err() {
            self.cut = true;
        }
    }

    /// The place of a line's front unit among all that stand.
    fn front_place(&self, line: usize) -> Option<usize>
        ensures { result ≡ front_place line self.now }
    {
        place_of(self.standing.as_slice(), line)
    }

    /// The number of a line's front unit.
    fn front(&self, line: usize) -> Option<usize>
        ensures { result ≡ front_unit line self.now }
    {
        let place = self.front_place(line)?;
        match self.standing.get(place) {
            Some(front) => Some(front.unit),
            None => None,
        }
    }

    /// The front unit of the line of this number comes to this.
    fn comes_to(&mut self, line: usize, what: What)
        ensures { self.new.cut ≡ false → self.new ≡ came_to line what self.old }
    {
        let Some(place) = self.front_place(line) else {
            return;
        };
        let Some(front) = self.standing.get(place).copied() else {
            return;
        };
        take_off(&mut self.standing, place, what);
        let moment = self.moment;
        let unit = front.unit;
        self.note(Step::Unit { moment, what, unit });
    }

    /// The front unit of a line comes to this. It leaves the line, unless it is repeated. Where nothing stands there,
    /// nothing is noted.
    pub fn front_comes_to(&mut self, course: Course, what: What)
        ensures { self.new.cut ≡ false → self.new ≡ came_to (line_number course) what self.old }
    {
        self.comes_to(course.number(), what);
    }

    /// So many units are sent on a line, whose octets aren't known yet.
    fn send_unseen(&mut self, course: Course, count: usize)
        ensures { self.new.cut ≡ false → self.new ≡ times count (sent_on course []) self.old }
    {
        for _ in 0..count {
            self.sent(course, &[]);
        }
    }

    /// So many units at the front of a line come to this, one after the other.
    fn come_to(&mut self, line: usize, count: usize, what: What)
        ensures { self.new.cut ≡ false → self.new ≡ times count (came_to line what) self.old }
    {
        for _ in 0..count {
            self.comes_to(line, what);
        }
    }

    /// So many units stand on a line now. What stands there beyond those that were noted is sent; what doesn't stand there
    /// any more was dropped.
    fn count(&mut self, course: Course, count: usize)
        ensures { self.new.cut ≡ false → self.new ≡ counted course (count_on (line_number course) self.old) count self.old }
    {
        let line = course.number();
        let known = self.count_on(line);
        self.send_unseen(course, count.saturating_sub(known));
        self.come_to(line, known.saturating_sub(count), What::Dropped);
    }

    /// The octets of the unit of this number are seen, if there are any.
    fn show(&mut self, number: Option<usize>, octets: Option<&[u8]>)
        ensures { self.new.cut ≡ false → self.new ≡ shown number (option_map (λ octets. octets.now) octets.entry) self.old }
    {
        let Some(number) = number else {
            return;
        };
        let Some(octets) = octets else {
            return;
        };
        self.see(number, octets);
    }

    /// So many units stand on a line now, and these are the octets of the one in front. What stands there beyond those that
    /// were noted is sent; what doesn't stand there any more was dropped.
    pub fn stands(&mut self, course: Course, count: usize, front: Option<&[u8]>)
        ensures { self.new.cut ≡ false → self.new ≡ stood course count (option_map (λ octets. octets.now) front.entry) self.old }
    {
        self.count(course, count);
        let number = self.front(course.number());
        self.show(number, front);
    }

    /// The octets of a unit are seen.
    fn see(&mut self, number: usize, octets: &[u8])
        ensures { self.new.cut ≡ false → self.new ≡ spec.seen number octets.now self.old }
    {
        if see(&mut self.units, number, octets).is_err() {
            self.cut = true;
        }
    }

    /// The units of this line are carried from here on.
    fn turn_to(&mut self, line: usize)
        ensures { self.new.cut ≡ false → self.new ≡ turned line self.old }
    {
        let goes_on = match self.carrying {
            Some(other) => other == line,
            None => false,
        };
        if !goes_on {
            self.settle();
            self.carrying = Some(line);
        }
    }

    /// A unit of a round or a control comes to its end. Those that come after one another on one line were all sent before
    /// the first of them came.
    pub fn carried(&mut self, course: Course, octets: &[u8])
        ensures { self.new.cut ≡ false → self.new ≡ carried_on course octets.now self.old }
    {
        self.turn_to(course.number());
        self.sent(course, octets);
    }

    /// What was carried has come to its end.
    pub fn settle(&mut self)
        ensures { self.new.cut ≡ false → self.new ≡ settled self.old }
    {
        if let Some(line) = self.carrying {
            let count = self.count_on(line);
            self.come_to(line, count, What::Arrives);
        }
        self.carrying = None;
    }
}
