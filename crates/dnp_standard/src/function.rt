//! The functions of fragments, and what follows their headers.

ghost use Rattle.std.specs.Prelude.{◌≡◌, IsTrue, ◌↔◌};
ghost use Rattle.dnp_standard.specs.Functions as spec;

/// What stands behind the object headers of a function's fragments.
#[derive(Clone, Copy)]
pub enum Carried {
    /// No objects: the headers name them. Of authentication (group 120) objects stand there all the same.
    Headers,
    /// The same, but a time (group 50) stands there.
    Times,
    /// Objects.
    Objects,
}

/// What a fragment asks for, or that it answers (IEEE Std 1815-2012, application layer: function codes).
#[derive(Clone, Copy)]
pub enum Function {
    /// CONFIRM.
    Confirm = 0,
    /// READ.
    Read = 1,
    /// WRITE.
    Write = 2,
    /// SELECT.
    Select = 3,
    /// OPERATE.
    Operate = 4,
    /// DIRECT_OPERATE.
    DirectOperate = 5,
    /// DIRECT_OPERATE_NR.
    DirectOperateNr = 6,
    /// IMMED_FREEZE.
    ImmedFreeze = 7,
    /// IMMED_FREEZE_NR.
    ImmedFreezeNr = 8,
    /// FREEZE_CLEAR.
    FreezeClear = 9,
    /// FREEZE_CLEAR_NR.
    FreezeClearNr = 10,
    /// FREEZE_AT_TIME.
    FreezeAtTime = 11,
    /// FREEZE_AT_TIME_NR.
    FreezeAtTimeNr = 12,
    /// COLD_RESTART.
    ColdRestart = 13,
    /// WARM_RESTART.
    WarmRestart = 14,
    /// INITIALIZE_DATA.
    InitializeData = 15,
    /// INITIALIZE_APPL.
    InitializeAppl = 16,
    /// START_APPL.
    StartAppl = 17,
    /// STOP_APPL.
    StopAppl = 18,
    /// SAVE_CONFIG.
    SaveConfig = 19,
    /// ENABLE_UNSOLICITED.
    EnableUnsolicited = 20,
    /// DISABLE_UNSOLICITED.
    DisableUnsolicited = 21,
    /// ASSIGN_CLASS.
    AssignClass = 22,
    /// DELAY_MEASURE.
    DelayMeasure = 23,
    /// RECORD_CURRENT_TIME.
    RecordCurrentTime = 24,
    /// OPEN_FILE.
    OpenFile = 25,
    /// CLOSE_FILE.
    CloseFile = 26,
    /// DELETE_FILE.
    DeleteFile = 27,
    /// GET_FILE_INFO.
    GetFileInfo = 28,
    /// AUTHENTICATE_FILE.
    AuthenticateFile = 29,
    /// ABORT_FILE.
    AbortFile = 30,
    /// ACTIVATE_CONFIG.
    ActivateConfig = 31,
    /// AUTHENTICATE_REQ.
    AuthenticateReq = 32,
    /// AUTH_REQ_NO_ACK.
    AuthReqNoAck = 33,
    /// RESPONSE.
    Response = 129,
    /// UNSOLICITED_RESPONSE.
    UnsolicitedResponse = 130,
    /// AUTHENTICATE_RESP.
    AuthenticateResp = 131,
}

/// All functions.
static FUNCTIONS: [Function; 37] = [
    Function::Confirm,
    Function::Read,
    Function::Write,
    Function::Select,
    Function::Operate,
    Function::DirectOperate,
    Function::DirectOperateNr,
    Function::ImmedFreeze,
    Function::ImmedFreezeNr,
    Function::FreezeClear,
    Function::FreezeClearNr,
    Function::FreezeAtTime,
    Function::FreezeAtTimeNr,
    Function::ColdRestart,
    Function::WarmRestart,
    Function::InitializeData,
    Function::InitializeAppl,
    Function::StartAppl,
    Function::StopAppl,
    Function::SaveConfig,
    Function::EnableUnsolicited,
    Function::DisableUnsolicited,
    Function::AssignClass,
    Function::DelayMeasure,
    Function::RecordCurrentTime,
    Function::OpenFile,
    Function::CloseFile,
    Function::DeleteFile,
    Function::GetFileInfo,
    Function::AuthenticateFile,
    Function::AbortFile,
    Function::ActivateConfig,
    Function::AuthenticateReq,
    Function::AuthReqNoAck,
    Function::Response,
    Function::UnsolicitedResponse,
    Function::AuthenticateResp,
];

impl Function {
    /// The function of this octet, if it is one's.
    #[tactic(auto, unfolding(crate::specs::Functions::function_of, crate::specs::Functions::functions))]
    pub fn of_octet(octet: u8) -> Option<Function>
        ensures { result ≡ spec.function_of octet }
    {
        FUNCTIONS
            .iter()
            .copied()
            .find(|function| function.octet() == octet)
    }

    /// Its octet.
    pub fn octet(self) -> u8
        ensures { result ≡ spec.octet_of self }
    {
        self as u8
    }

    /// What the standard calls it, as `READ`.
    pub fn name(self) -> &'static str
        ensures { result.now ≡ spec.name_of self }
    {
        match self {
            Function::Confirm => "CONFIRM",
            Function::Read => "READ",
            Function::Write => "WRITE",
            Function::Select => "SELECT",
            Function::Operate => "OPERATE",
            Function::DirectOperate => "DIRECT_OPERATE",
            Function::DirectOperateNr => "DIRECT_OPERATE_NR",
            Function::ImmedFreeze => "IMMED_FREEZE",
            Function::ImmedFreezeNr => "IMMED_FREEZE_NR",
            Function::FreezeClear => "FREEZE_CLEAR",
            Function::FreezeClearNr => "FREEZE_CLEAR_NR",
            Function::FreezeAtTime => "FREEZE_AT_TIME",
            Function::FreezeAtTimeNr => "FREEZE_AT_TIME_NR",
            Function::ColdRestart => "COLD_RESTART",
            Function::WarmRestart => "WARM_RESTART",
            Function::InitializeData => "INITIALIZE_DATA",
            Function::InitializeAppl => "INITIALIZE_APPL",
            Function::StartAppl => "START_APPL",
            Function::StopAppl => "STOP_APPL",
            Function::SaveConfig => "SAVE_CONFIG",
            Function::EnableUnsolicited => "ENABLE_UNSOLICITED",
            Function::DisableUnsolicited => "DISABLE_UNSOLICITED",
            Function::AssignClass => "ASSIGN_CLASS",
            Function::DelayMeasure => "DELAY_MEASURE",
            Function::RecordCurrentTime => "RECORD_CURRENT_TIME",
            Function::OpenFile => "OPEN_FILE",
            Function::CloseFile => "CLOSE_FILE",
            Function::DeleteFile => "DELETE_FILE",
            Function::GetFileInfo => "GET_FILE_INFO",
            Function::AuthenticateFile => "AUTHENTICATE_FILE",
            Function::AbortFile => "ABORT_FILE",
            Function::ActivateConfig => "ACTIVATE_CONFIG",
            Function::AuthenticateReq => "AUTHENTICATE_REQ",
            Function::AuthReqNoAck => "AUTH_REQ_NO_ACK",
            Function::Response => "RESPONSE",
            Function::UnsolicitedResponse => "UNSOLICITED_RESPONSE",
            Function::AuthenticateResp => "AUTHENTICATE_RESP",
        }
    }

    /// What stands behind the headers of its fragments.
    pub fn carried(self) -> Carried
        ensures { result ≡ spec.carried_of self }
    {
        match self {
            Function::Confirm
            | Function::Read
            | Function::ImmedFreeze
            | Function::ImmedFreezeNr
            | Function::FreezeClear
            | Function::FreezeClearNr
            | Function::ColdRestart
            | Function::WarmRestart
            | Function::InitializeData
            | Function::EnableUnsolicited
            | Function::DisableUnsolicited
            | Function::AssignClass
            | Function::DelayMeasure
            | Function::RecordCurrentTime => Carried::Headers,
            Function::FreezeAtTime | Function::FreezeAtTimeNr => Carried::Times,
            Function::Write
            | Function::Select
            | Function::Operate
            | Function::DirectOperate
            | Function::DirectOperateNr
            | Function::InitializeAppl
            | Function::StartAppl
            | Function::StopAppl
            | Function::SaveConfig
            | Function::OpenFile
            | Function::CloseFile
            | Function::DeleteFile
            | Function::GetFileInfo
            | Function::AuthenticateFile
            | Function::AbortFile
            | Function::ActivateConfig
            | Function::AuthenticateReq
            | Function::AuthReqNoAck
            | Function::Response
            | Function::UnsolicitedResponse
            | Function::AuthenticateResp => Carried::Objects,
        }
    }

    /// Whether it is a response's, and not a request's: two octets of indications follow it.
    pub fn is_response(self) -> bool
        ensures { result ≡ spec.is_response self }
    {
        matches!(
            self,
            Function::Response | Function::UnsolicitedResponse | Function::AuthenticateResp
        )
    }
}
