//! One line of octets, answered.

ghost use Rattle.std.specs.Prelude.{◌≡◌, ℕ, ◌≤◌, Bool, List, [], ◌∷◌, ◌++◌, length, codes, IfOk, OnOk, OnErr, Err};
ghost use Rattle.std.specs.Io.KnownBytes.{Appends};
ghost use Rattle.dnp_linkframe.specs.declared.frame.Frame.{Frame as FrameValue};
ghost use Rattle.dnp_streams.specs.AnswerLine.{IsAnswer, IsFrameLine, IsPrinted, answer_text, fault_text, is_frame};
ghost use Rattle.dnp_streams.specs.Station.{Heeds};

use crate::octets::{MAX_LINE, read_octets};
use crate::station::respond;
use crate::writing::{NotWritten, write_out};
use arrayvec::ArrayVec;
use dnp_linkframe::{FrameFault, read_frame};
use itoa::Buffer;
use std::alloc::{AllocError, Global};
use std::io::Write;

/// The most characters of a line of words: those of the longest refusal.
const MAX_WORDS: usize = 100;

/// Why a line was not answered.
#[derive(Clone, Copy, Debug, PartialEq, Eq)]
pub enum AnswerFault {
    /// The writer failed. What was written is a beginning of the line.
    WriteFailed,
    /// Out of memory. Nothing was written.
    Memory,
}

/// What is said to a line of text.
#[derive(Debug, PartialEq, Eq, Drop)]
enum Answer {
    /// The text is no line of octets.
    Unreadable,
    /// The octets are no link frame.
    Refused(FrameFault),
    /// The station doesn't answer the frame.
    Silent,
    /// The lines of the frames that the station sends.
    Sent(Vec<u8>),
}

/// A line of these words.
fn line_of_words(words: &[u8]) -> ArrayVec<u8, MAX_LINE>
    requires { length words.now ≤ MAX_WORDS }
    ensures { result.items ≡ words.now }
{
    let mut line = ArrayVec::new();
    line.try_extend_from_slice(words).unwrap();
    line
}

/// The words that say why octets are no frame, with their line feed: the fault's number and name.
fn refusal(fault: FrameFault) -> ArrayVec<u8, MAX_LINE>
    ensures { result.items ≡ codes "refused " ++ fault_text fault ++ 10 ∷ [] }
{
    match fault {
        FrameFault::Short => line_of_words(b"refused 1 Short\n"),
        FrameFault::Start => line_of_words(b"refused 2 Start\n"),
        FrameFault::HeaderCheck => line_of_words(b"refused 3 HeaderCheck\n"),
        FrameFault::Length => line_of_words(b"refused 4 Length\n"),
        FrameFault::Size => line_of_words(b"refused 5 Size\n"),
        FrameFault::BlockCheck(block) => {
            let mut line = line_of_words(b"refused 6 BlockCheck ");
            let mut digits = Buffer::new();
            line.try_extend_from_slice(digits.format(block).as_bytes())
                .unwrap();
            line.push(b'\n');
            line
        }
    }
}

impl Answer {
    /// The answer to a line of text that comes to station `own`, whose master is `peer`.
    fn to(alloc: Global, text: &[u8], own: u16, peer: u16) -> Result<Self, AllocError>
        ensures answer { IfOk result (IsAnswer text.now own peer) }
        ensures memory { OnErr result ((frame : FrameValue) × IsFrameLine text.now frame × Heeds own peer frame) }
    {
        let Some(octets) = read_octets(text) else {
            return Ok(Answer::Unreadable);
        };
        let frame = match read_frame(&octets) {
            Err(fault) => return Ok(Answer::Refused(fault)),
            Ok(frame) => frame,
        };
        let lines = respond(alloc, &frame, own, peer)?;
        if lines.as_slice().is_empty() {
            return Ok(Answer::Silent);
        }
        Ok(Answer::Sent(lines))
    }

    /// Writes the answer as lines of text, each with its line feed.
    fn write<W: Write>(&self, out: &mut W) -> Result<(), NotWritten>
        ensures whole { OnOk result (Appends (W.contents out.old) (W.contents out.new) (answer_text self.now)) }
        ensures part { OnErr result ((part rest : List ℕ) × (answer_text self.now ≡ part ++ rest)
            × Appends (W.contents out.old) (W.contents out.new) part) }
    {
        match self {
            Answer::Unreadable => write_out(b"refused 0 Text\n", out),
            Answer::Refused(fault) => write_out(&refusal(*fault), out),
            Answer::Silent => write_out(b"no answer\n", out),
            Answer::Sent(lines) => write_out(lines, out),
        }
    }

    /// Whether the text was a link frame, answered or not.
    fn is_frame(&self) -> bool
        ensures { result ≡ is_frame self.now }
    {
        matches!(self, Answer::Silent | Answer::Sent(_))
    }
}

/// Answers one line of text: two-digit hexadecimal octets of either case, separated by single spaces,
/// at most [`MAX_CHARACTERS`](crate::MAX_CHARACTERS) characters without the line feed that may end it.
///
/// Where the octets are a link frame, a line is written for each frame that the station `own` sends
/// back, or `no answer`, and the result is true. Otherwise `refused`, a number and a name are written,
/// and the result is false: 0 Text where the text is no such line, else the frame's fault. The station
/// is an outstation without points that `peer` is the master of; it was opened at the moment 0, and has
/// heard nothing before (IEEE Std 1815-2012, data link layer and application layer).
///
/// A fault is WriteFailed where the writer failed, and what was written then is a beginning of the
/// right text; or Memory, which is asked for only where the station heeds a frame, and then nothing was written.
pub fn answer_line<W: Write>(
    alloc: Global,
    text: &[u8],
    own: u16,
    peer: u16,
    out: &mut W,
) -> Result<bool, AnswerFault>
    ensures answered { IfOk result (λ accepted. (lines : List ℕ) × IsPrinted text.now own peer lines accepted × Appends (W.contents out.old) (W.contents out.new) lines) }
    ensures part { result ≡ Err AnswerFault.WriteFailed → (part : List ℕ) × (rest : List ℕ) × (accepted : Bool) × IsPrinted text.now own peer (part ++ rest) accepted × Appends (W.contents out.old) (W.contents out.new) part }
    ensures unwritten { result ≡ Err AnswerFault.Memory → out.new ≡ out.old }
    ensures memory { result ≡ Err AnswerFault.Memory → (frame : FrameValue) × IsFrameLine text.now frame × Heeds own peer frame }
{
    let Ok(answer) = Answer::to(alloc, text, own, peer) else {
        return Err(AnswerFault::Memory);
    };
    match answer.write(out) {
        Ok(()) => Ok(answer.is_frame()),
        Err(_) => Err(AnswerFault::WriteFailed),
    }
}
