//! What becomes of a control that is relayed, as it is known: which step of it is said, and when.

ghost use Rattle.std.specs.Prelude.{◌≡◌};
ghost use Rattle.dnp_notices.specs.Controls as spec;

use dnp_objects::Status;

/// How far the control is that a link is at, as far as the log has followed it.
#[derive(Clone, Copy, Debug, PartialEq, Eq)]
pub enum Doing {
    /// None is in progress.
    Nothing,
    /// The SELECT of this control was sent, and its answer is awaited.
    Selecting(u64),
    /// The same, and it was sent before without an answer.
    SelectingAgain(u64),
    /// Its SELECT was answered SUCCESS.
    Selected(u64),
    /// Its OPERATE was sent, and its answer is awaited.
    Operating(u64),
    /// The connection ended before its OPERATE was sent: it is selected again on the next one.
    Unsent(u64),
    /// The same, and it was not for the first time.
    UnsentAgain(u64),
}

/// What happened to the control that a link is at.
#[derive(Clone, Copy, Debug, PartialEq, Eq)]
pub enum Happening {
    /// The SELECT of this control was sent.
    SelectSent(u64),
    /// The OPERATE of this control was sent.
    OperateSent(u64),
    /// What was sent was answered with this status.
    Answered(Status),
    /// What was sent was answered with something else than the control.
    Unlike,
    /// The connection ended.
    Closed,
}

/// What is said of a control.
#[derive(Clone, Copy, Debug, PartialEq, Eq)]
pub enum ControlNotice {
    /// It was selected.
    Selected(u64),
    /// Its OPERATE was answered SUCCESS.
    Done(u64),
    /// Its SELECT was refused with this status.
    NotSelected(u64, Status),
    /// Its OPERATE was refused with this status.
    NotDone(u64, Status),
    /// Its SELECT was answered with something else.
    SelectUnlike(u64),
    /// Its OPERATE was answered with something else.
    OperateUnlike(u64),
    /// Its SELECT was not answered, or was answered and its OPERATE could not be sent: it is selected again.
    Postponed(u64),
    /// It is being selected again.
    Again(u64),
    /// Its OPERATE was not answered: whether it was done is not known, and it is not sent again.
    Unknown(u64),
}

impl ControlNotice {
    /// The number of the control that something is said of.
    pub(crate) fn id(&self) -> u64
        ensures { result ≡ spec.id_of self.now }
    {
        match self {
            ControlNotice::Selected(id)
            | ControlNotice::Done(id)
            | ControlNotice::NotSelected(id, _)
            | ControlNotice::NotDone(id, _)
            | ControlNotice::SelectUnlike(id)
            | ControlNotice::OperateUnlike(id)
            | ControlNotice::Postponed(id)
            | ControlNotice::Again(id)
            | ControlNotice::Unknown(id) => *id,
        }
    }
}

impl Doing {
    /// How far the control is after something happened to it.
    pub fn after(self, happening: &Happening) -> Doing
        ensures { result ≡ spec.after self happening.now }
    {
        match *happening {
            Happening::SelectSent(id) => self.selecting(id),
            Happening::OperateSent(id) => Doing::Operating(id),
            Happening::Answered(status) => self.answered(status),
            Happening::Unlike => Doing::Nothing,
            Happening::Closed => self.closed(),
        }
    }

    /// What is said where something happens to the control that is so far.
    pub fn notice(self, happening: &Happening) -> Option<ControlNotice>
        ensures { result ≡ spec.notice self happening.now }
    {
        match *happening {
            Happening::SelectSent(id) => self.notice_of_select(id),
            Happening::OperateSent(_) => None,
            Happening::Answered(status) => self.notice_of_answer(status),
            Happening::Unlike => self.notice_of_unlike(),
            Happening::Closed => self.notice_of_end(),
        }
    }

    /// Whether this very control was selected before, without its OPERATE having been sent.
    fn was_selected(self, id: u64) -> bool
        ensures { result ≡ spec.was_selected self id }
    {
        match self {
            Doing::Selecting(before)
            | Doing::SelectingAgain(before)
            | Doing::Selected(before)
            | Doing::Unsent(before)
            | Doing::UnsentAgain(before) => before == id,
            Doing::Nothing | Doing::Operating(_) => false,
        }
    }

    /// The SELECT of a control was sent.
    fn selecting(self, id: u64) -> Doing
        ensures { result ≡ spec.selecting self id }
    {
        if self.was_selected(id) {
            Doing::SelectingAgain(id)
        } else {
            Doing::Selecting(id)
        }
    }

    /// What was sent was answered with a status.
    fn answered(self, status: Status) -> Doing
        ensures { result ≡ spec.answered self status }
    {
        match self {
            Doing::Selecting(id) | Doing::SelectingAgain(id) if status.code() == 0 =>
                Doing::Selected(id),
            _ => Doing::Nothing,
        }
    }

    /// The connection ended.
    fn closed(self) -> Doing
        ensures { result ≡ spec.closed self }
    {
        match self {
            Doing::Selecting(id) | Doing::Selected(id) | Doing::Unsent(id) => Doing::Unsent(id),
            Doing::SelectingAgain(id) | Doing::UnsentAgain(id) => Doing::UnsentAgain(id),
            Doing::Nothing | Doing::Operating(_) => Doing::Nothing,
        }
    }

    /// What is said where the SELECT of a control was sent: that it is tried again, once.
    fn notice_of_select(self, id: u64) -> Option<ControlNotice>
        ensures { result ≡ spec.notice_of_select self id }
    {
        match self {
            Doing::Selecting(before) | Doing::Selected(before) | Doing::Unsent(before)
                if before == id => { Some(ControlNotice::Again(id)) }
            _ => None,
        }
    }

    /// What is said of an answer with a status.
    fn notice_of_answer(self, status: Status) -> Option<ControlNotice>
        ensures { result ≡ spec.notice_of_answer self status }
    {
        match self {
            Doing::Selecting(id) | Doing::SelectingAgain(id) => Some(if status.code() == 0 {
                ControlNotice::Selected(id)
            } else {
                ControlNotice::NotSelected(id, status)
            }),
            Doing::Operating(id) => Some(if status.code() == 0 {
                ControlNotice::Done(id)
            } else {
                ControlNotice::NotDone(id, status)
            }),
            _ => None,
        }
    }

    /// What is said of an answer with something else.
    fn notice_of_unlike(self) -> Option<ControlNotice>
        ensures { result ≡ spec.notice_of_unlike self }
    {
        match self {
            Doing::Selecting(id) | Doing::SelectingAgain(id) => Some(ControlNotice::SelectUnlike(
                id,
            )),
            Doing::Operating(id) => Some(ControlNotice::OperateUnlike(id)),
            _ => None,
        }
    }

    /// What is said where the connection ends: that the control is still to be sent, once, or that its answer is not known.
    fn notice_of_end(self) -> Option<ControlNotice>
        ensures { result ≡ spec.notice_of_end self }
    {
        match self {
            Doing::Selecting(id) | Doing::Selected(id) => Some(ControlNotice::Postponed(id)),
            Doing::Operating(id) => Some(ControlNotice::Unknown(id)),
            _ => None,
        }
    }
}
