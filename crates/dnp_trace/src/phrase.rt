//! What a unit says, in one phrase of the standard's words.
ghost use Rattle.std.specs.Prelude.{◌≡◌, ◌≤◌, ◌++◌, List, ℕ, length, codes, OnOk};
ghost use Rattle.dnp_appfragment.specs.Seen.{head};
ghost use Rattle.dnp_trace.specs.Phrases.{is_all as is_all_objects, header_phrase, more_phrase, headers_phrase, control_phrase, iin_phrase, request_phrase, response_phrase, body_phrase, coded_phrase, fragment_phrase, part_phrase, headed_phrase, segment_phrase, reply_of as reply_by, reply_name, reply_phrase, asked_phrase, frame_phrase, IsPhrase};
ghost use Rattle.dnp_appfragment.specs.Meaning.{request_at, response_at};

use crate::sheet::Sheet;
use dnp_appfragment::{
    Control, Function, Header, Headers, Iin, Range, read_request, read_response,
};
use dnp_linkframe::read_frame;
use dnp_linkstation::{PrimaryFunction, SecondaryFunction};
use std::alloc::AllocError;

/// How many headers of a fragment are named. Of those after them the number is said.
pub(crate) const NAMED: usize = 8;

/// The functions of the link layer's replies.
static REPLIES: [SecondaryFunction; 4] = [
    SecondaryFunction::Ack,
    SecondaryFunction::Nack,
    SecondaryFunction::LinkStatus,
    SecondaryFunction::NotSupported,
];

/// Says what a unit says. One whose octets were never seen is 'unseen'.
pub(crate) fn say_unit(sheet: &mut Sheet, unit: &[u8]) -> Result<(), AllocError>
    ensures { OnOk result ((phrase : List ℕ) × IsPhrase unit.now phrase × (sheet.new ≡ sheet.old ++ phrase)) }
{
    if unit.is_empty() {
        sheet.word("unseen")?;
        return Ok(());
    }
    match read_frame(unit) {
        Ok(frame) => {
            say_frame(sheet, frame.control, frame.user.as_slice())?;
            Ok(())
        }
        Err(_) => {
            sheet.word("no link frame")?;
            Ok(())
        }
    }
}

/// Says what a link frame of this CONTROL says.
fn say_frame(sheet: &mut Sheet, control: u8, user: &[u8]) -> Result<(), AllocError>
    ensures { OnOk result (sheet.new ≡ sheet.old ++ frame_phrase control user.now) }
{
    if control / 0x40 % 2 == 1 {
        say_asked(sheet, PrimaryFunction::of(control), control % 16, user)
    } else {
        say_reply(sheet, control % 16)
    }
}

/// Says what a link frame that asks something says, whose function has this number.
fn say_asked(
    sheet: &mut Sheet,
    function: PrimaryFunction,
    number: u8,
    user: &[u8],
) -> Result<(), AllocError>
    ensures { OnOk result (sheet.new ≡ sheet.old ++ asked_phrase function number user.now) }
{
    match function {
        PrimaryFunction::ResetLinkStates => sheet.word("RESET_LINK_STATES"),
        PrimaryFunction::TestLinkStates => sheet.word("TEST_LINK_STATES"),
        PrimaryFunction::ConfirmedUserData => say_confirmed(sheet, user),
        PrimaryFunction::UnconfirmedUserData => say_segment(sheet, user),
        PrimaryFunction::RequestLinkStatus => sheet.word("REQUEST_LINK_STATUS"),
        PrimaryFunction::Other => {
            sheet.word("link function ")?;
            sheet.number(number)
        }
    }
}

/// Says what user data that are acknowledged say.
fn say_confirmed(sheet: &mut Sheet, user: &[u8]) -> Result<(), AllocError>
    ensures { OnOk result (sheet.new ≡ sheet.old ++ (codes "CONFIRMED_USER_DATA " ++ segment_phrase user.now)) }
{
    sheet.word("CONFIRMED_USER_DATA ")?;
    say_segment(sheet, user)?;
    Ok(())
}

/// The reply of this number, if it is one's.
fn reply_of(code: u8) -> Option<SecondaryFunction>
    ensures { result ≡ reply_by code }
{
    REPLIES.iter().copied().find(|reply| reply.code() == code)
}

/// The standard's name of a reply.
fn name_of_reply(reply: SecondaryFunction) -> &'static str
    ensures { result.now ≡ reply_name reply }
{
    match reply {
        SecondaryFunction::Ack => "ACK",
        SecondaryFunction::Nack => "NACK",
        SecondaryFunction::LinkStatus => "LINK_STATUS",
        SecondaryFunction::NotSupported => "NOT_SUPPORTED",
    }
}

/// Says what a link frame that replies says.
fn say_reply(sheet: &mut Sheet, code: u8) -> Result<(), AllocError>
    ensures { OnOk result (sheet.new ≡ sheet.old ++ reply_phrase (reply_by code) code) }
{
    match reply_of(code) {
        Some(reply) => sheet.word(name_of_reply(reply)),
        None => {
            sheet.word("link reply ")?;
            sheet.number(code)
        }
    }
}

/// Says what a segment says.
#[tactic(auto, unfolding(crate::specs::Phrases::segment_phrase))]
fn say_segment(sheet: &mut Sheet, user: &[u8]) -> Result<(), AllocError>
    ensures { OnOk result (sheet.new ≡ sheet.old ++ segment_phrase user.now) }
{
    if user.is_empty() {
        return sheet.word("no segment");
    }
    say_headed(sheet, user[0], &user[1..])
}

/// Says what a segment of this header says: what its fragment says where it is the only one.
fn say_headed(sheet: &mut Sheet, header: u8, rest: &[u8]) -> Result<(), AllocError>
    ensures { OnOk result (sheet.new ≡ sheet.old ++ headed_phrase header rest.now) }
{
    if header / 0x80 % 2 == 1 && header / 0x40 % 2 == 1 {
        say_fragment(sheet, rest)
    } else {
        say_part(sheet, header)
    }
}

/// Says the bits and the number of a segment of this header.
fn say_part(sheet: &mut Sheet, header: u8) -> Result<(), AllocError>
    ensures { OnOk result (sheet.new ≡ sheet.old ++ part_phrase header) }
{
    sheet.word("segment ")?;
    sheet.word_if(header / 0x40 % 2 == 1, "FIR ")?;
    sheet.word_if(header / 0x80 % 2 == 1, "FIN ")?;
    sheet.number(header % 64)
}

/// Says what a fragment says.
fn say_fragment(sheet: &mut Sheet, fragment: &[u8]) -> Result<(), AllocError>
    ensures { OnOk result (sheet.new ≡ sheet.old ++ fragment_phrase fragment.now) }
{
    if fragment.len() < 2 {
        return sheet.word("no fragment");
    }
    say_coded(sheet, Function::of_octet(fragment[1]), fragment)
}

/// Says what a fragment of this function, or of none, says.
fn say_coded(
    sheet: &mut Sheet,
    function: Option<Function>,
    fragment: &[u8],
) -> Result<(), AllocError>
    requires { 2 ≤ length fragment.now }
    ensures { OnOk result (sheet.new ≡ sheet.old ++ coded_phrase function fragment.now) }
{
    let control = Control::read(fragment[0]);
    match function {
        Some(function) => {
            sheet.word(function.name())?;
            say_control(sheet, control)?;
            say_body(sheet, function, fragment)?;
            Ok(())
        }
        None => {
            sheet.word("function ")?;
            sheet.number(fragment[1])?;
            say_control(sheet, control)?;
            Ok(())
        }
    }
}

/// Says the sequence number of a fragment, and its bits that are set.
fn say_control(sheet: &mut Sheet, control: Control) -> Result<(), AllocError>
    ensures { OnOk result (sheet.new ≡ sheet.old ++ control_phrase control) }
{
    sheet.word(" seq ")?;
    sheet.number(control.seq)?;
    sheet.word_if(control.fir, " fir")?;
    sheet.word_if(control.fin, " fin")?;
    sheet.word_if(control.con, " con")?;
    sheet.word_if(control.uns, " uns")
}

/// Says what follows the function and the control octet of a fragment.
fn say_body(sheet: &mut Sheet, function: Function, fragment: &[u8]) -> Result<(), AllocError>
    ensures { OnOk result (sheet.new ≡ sheet.old ++ body_phrase function fragment.now) }
{
    if function.is_response() {
        say_response(sheet, fragment)
    } else {
        say_request(sheet, fragment)
    }
}

/// Says the headers of a request.
fn say_request(sheet: &mut Sheet, fragment: &[u8]) -> Result<(), AllocError>
    ensures { OnOk result (sheet.new ≡ sheet.old ++ request_phrase (request_at fragment.now)) }
{
    match read_request(fragment) {
        Ok(request) => say_headers(sheet, request.headers),
        Err(_) => sheet.word(", invalid"),
    }
}

/// Says the internal indications of a response, where there are any, and its headers.
fn say_response(sheet: &mut Sheet, fragment: &[u8]) -> Result<(), AllocError>
    ensures { OnOk result (sheet.new ≡ sheet.old ++ response_phrase (response_at fragment.now)) }
{
    match read_response(fragment) {
        Ok(response) => {
            say_indications(sheet, response.iin)?;
            say_headers(sheet, response.headers)
        }
        Err(_) => sheet.word(", invalid"),
    }
}

/// Says the internal indications, where there are any.
fn say_indications(sheet: &mut Sheet, iin: Iin) -> Result<(), AllocError>
    ensures { OnOk result (sheet.new ≡ sheet.old ++ iin_phrase iin) }
{
    if iin.one == 0 && iin.two == 0 {
        return Ok(());
    }
    sheet.word(" iin ")?;
    sheet.hex(iin.one)?;
    sheet.word(" ")?;
    sheet.hex(iin.two)
}

/// Says the headers of a fragment: the first by name, and how many come after them.
fn say_headers(sheet: &mut Sheet, headers: Headers<'_>) -> Result<(), AllocError>
    ensures { OnOk result (sheet.new ≡ sheet.old ++ headers_phrase headers.entry.headers) }
{
    let mut room = NAMED;
    let mut left: usize = 0;
    for header in headers {
        if room == 0 {
            left = left.saturating_add(1);
            continue;
        }
        say_header(sheet, header)?;
        room -= 1;
    }
    say_more(sheet, left)?;
    Ok(())
}

/// Says how many headers more there are.
fn say_more(sheet: &mut Sheet, left: usize) -> Result<(), AllocError>
    ensures { OnOk result (sheet.new ≡ sheet.old ++ more_phrase left) }
{
    if left == 0 {
        return Ok(());
    }
    sheet.word(", ")?;
    sheet.number(left)?;
    sheet.word(" more")
}

/// Whether a header speaks of all objects.
fn is_all(range: Range) -> bool
    ensures { result ≡ is_all_objects range }
{
    matches!(range, Range::All)
}

/// Says an object header: its group, its variation, and how many objects it names.
fn say_header(sheet: &mut Sheet, header: Header<'_>) -> Result<(), AllocError>
    ensures { OnOk result (sheet.new ≡ sheet.old ++ header_phrase (head header.entry)) }
{
    sheet.word(", ")?;
    sheet.number(header.group)?;
    sheet.word(".")?;
    sheet.number(header.variation)?;
    if is_all(header.range) {
        return sheet.word(" all");
    }
    sheet.word(" x")?;
    sheet.number(header.count())
}
