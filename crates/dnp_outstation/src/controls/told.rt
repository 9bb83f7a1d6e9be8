//! What commands are answered, and the headers of a request with that in them.

ghost use Rattle.std.specs.Prelude.{◌≡◌, ◌≤◌, ◌+◌, [], ◌++◌, length, None};
ghost use Rattle.std.specs.Option.{option_map};
ghost use Rattle.arrayvec.specs.ArrayVec.{array_vec_len};
ghost use Rattle.dnp_appfragment.specs.declared.function.Function.TheVariants as function;
ghost use Rattle.dnp_appfragment.specs.declared.table.Form.TheVariants as form;
ghost use Rattle.dnp_appfragment.specs.Built.{heads, size, with_header};
ghost use Rattle.dnp_appfragment.specs.Headers.{IsHeader, AreHeaders, begin, header_octets, spelled};
ghost use Rattle.dnp_appfragment.specs.Seen.{head};
ghost use Rattle.dnp_outstation.specs.Controls.{command_at, with_status, answered_head, headers_with};
ghost use Rattle.dnp_outstation.specs.steps.Deciding.{code_by};

use crate::offer::writer::Writer;
use arrayvec::ArrayVec;
use dnp_appfragment::{Header, Headers};
use dnp_controls::Outputs;
use dnp_objects::{Command, MAX_FRAGMENT, Status};

/// How many octets the objects of a header have at most where they are copied through room that costs nothing to
/// clear: most requests have one command, whose object has 13 octets with its index.
const FEW: usize = 64;

/// What the commands of a request are answered.
#[derive(Clone, Copy)]
pub(crate) enum Statuses {
    /// All the same.
    Alike(Status),
    /// Each its check.
    Checked,
}

impl Statuses {
    /// The number of the status that a command is answered.
    fn code<O: Outputs>(&self, outputs: &O, command: &Command) -> u8
        ensures { result ≡ code_by (O.panel outputs.now) self.now command.now }
    {
        match *self {
            Statuses::Alike(status) => status.code(),
            Statuses::Checked => outputs.check(command).code(),
        }
    }

    /// That of object k of a header, if it is a command.
    fn code_at<O: Outputs>(&self, outputs: &O, header: &Header<'_>, k: usize) -> Option<u8>
        ensures { result ≡ option_map (code_by (O.panel outputs.now) self.now) (command_at (head header.now) k) }
    {
        match header.command(k) {
            Some((command, _)) => Some(self.code(outputs, &command)),
            None => None,
        }
    }
}

/// Appends an object with this status in its last octet, if it is given one.
fn push_object<const N: usize>(octets: &mut ArrayVec<u8, N>, object: &[u8], code: Option<u8>)
    requires some { 1 ≤ length object.now }
    requires room { array_vec_len octets.old + length object.now ≤ N }
    ensures { octets.new.items ≡ octets.old.items ++ with_status object.now code }
{
    match code {
        Some(code) => {
            octets
                .try_extend_from_slice(&object[..object.len() - 1])
                .unwrap();
            octets.push(code);
        }
        None => octets.try_extend_from_slice(object).unwrap(),
    }
}

/// Fills in the objects of a header, each with the status of its command.
fn fill<const N: usize, O: Outputs>(
    octets: &mut ArrayVec<u8, N>,
    outputs: &O,
    told: &Statuses,
    header: &Header<'_>,
)
    requires empty { octets.old.items ≡ [] }
    requires whole { IsHeader form.Command (head header.now) }
    requires room { length header.now.octets.now ≤ N }
    ensures { octets.new.items ≡ (answered_head (code_by (O.panel outputs.now) told.now) (head header.now)).octets }
{
    let count = header.count();
    if count == 0 {
        return;
    }
    let size = header.octets.len() / count;
    let mut rest = header.octets;
    for k in 0..count {
        let (object, behind) = rest.split_at(size);
        push_object(octets, object, told.code_at(outputs, header, k));
        rest = behind;
    }
}

impl Writer {
    /// Puts a header of commands, each with its status, whose objects are copied into `octets` first.
    fn put_copied<const N: usize, O: Outputs>(
        &mut self,
        octets: &mut ArrayVec<u8, N>,
        outputs: &O,
        told: &Statuses,
        header: &Header<'_>,
    )
        requires empty { octets.old.items ≡ [] }
        requires few { length header.now.octets.now ≤ N }
        requires whole { IsHeader form.Command (head header.now) }
        requires alone { (head header.now).common ≡ None }
        requires response { self.old.builder.function ≡ function.Response }
        requires room { size self.old.builder + length (header_octets (head header.now)) ≤ MAX_FRAGMENT }
        ensures { self.new ≡ record self.old {
          builder = with_header self.old.builder (answered_head (code_by (O.panel outputs.now) told.now) (head header.now));
        } }
    {
        fill(octets, outputs, told, header);
        let answered = Header {
            octets: octets.as_slice(),
            ..*header
        };
        let _put = self.builder.header(&answered);
    }

    /// The same where the objects may have as many octets as a fragment. It stands apart, since room for so many is
    /// cleared first.
    #[inline(never)]
    fn put_many<O: Outputs>(&mut self, outputs: &O, told: &Statuses, header: &Header<'_>)
        requires whole { IsHeader form.Command (head header.now) }
        requires alone { (head header.now).common ≡ None }
        requires response { self.old.builder.function ≡ function.Response }
        requires room { size self.old.builder + length (header_octets (head header.now)) ≤ MAX_FRAGMENT }
        ensures { self.new ≡ record self.old {
          builder = with_header self.old.builder (answered_head (code_by (O.panel outputs.now) told.now) (head header.now));
        } }
    {
        let mut octets = ArrayVec::<u8, MAX_FRAGMENT>::new();
        self.put_copied(&mut octets, outputs, told, header);
    }

    /// Puts a header of commands, each with its status.
    fn put_answered<O: Outputs>(&mut self, outputs: &O, told: &Statuses, header: &Header<'_>)
        requires whole { IsHeader form.Command (head header.now) }
        requires alone { (head header.now).common ≡ None }
        requires response { self.old.builder.function ≡ function.Response }
        requires room { size self.old.builder + length (header_octets (head header.now)) ≤ MAX_FRAGMENT }
        ensures { self.new ≡ record self.old {
          builder = with_header self.old.builder (answered_head (code_by (O.panel outputs.now) told.now) (head header.now));
        } }
    {
        if header.octets.len() <= FEW {
            let mut octets = ArrayVec::<u8, FEW>::new();
            self.put_copied(&mut octets, outputs, told, header);
        } else {
            self.put_many(outputs, told, header);
        }
    }

    /// Puts the headers of a request, each command with its status.
    pub(crate) fn put_answers<O: Outputs>(
        &mut self,
        outputs: &O,
        told: &Statuses,
        headers: Headers<'_>,
    )
        requires whole { AreHeaders form.Command begin headers.headers }
        requires response { self.old.builder.function ≡ function.Response }
        requires room { size self.old.builder + length (spelled headers.headers) ≤ MAX_FRAGMENT }
        ensures heads { heads self.new.builder ≡ heads self.old.builder ++ headers_with (code_by (O.panel outputs.now) told.now) headers.entry.headers }
        ensures response { self.new.builder.function ≡ function.Response }
        ensures upto { self.new.upto ≡ self.old.upto }
    {
        for header in headers {
            self.put_answered(outputs, told, &header);
        }
    }
}
