//! The functions of fragments and their octets.
ghost use Rattle.std.specs.Prelude.{◌≡◌, ◌↔◌, IsTrue, IfSome};
ghost use Rattle.dnp_appfragment.specs.declared.function.Function.{Function as FunctionValue};
ghost use Rattle.dnp_appfragment.specs.Names.{function_name};
ghost use Rattle.dnp_appfragment.specs.Table.{function_octet, function_of, is_response};
ghost use Rattle.dnp_appfragment.specs.Built.{carries_commands};

use crate::table::{Form, form_of};

/// What a fragment asks for, or that it answers (IEEE Std 1815-2012, application layer: function
/// codes).
#[derive(Clone, Copy, Debug, PartialEq, Eq, Hash)]
pub enum Function {
    /// CONFIRM: the fragment of this sequence number has come.
    Confirm = 0,
    /// READ.
    Read = 1,
    /// WRITE.
    Write = 2,
    /// SELECT: be ready for these commands.
    Select = 3,
    /// OPERATE: carry out the selected commands.
    Operate = 4,
    /// DIRECT_OPERATE: carry out these commands.
    DirectOperate = 5,
    /// DIRECT_OPERATE_NR: carry out these commands, and do not answer.
    DirectOperateNr = 6,
    /// ENABLE_UNSOLICITED.
    EnableUnsolicited = 20,
    /// DISABLE_UNSOLICITED.
    DisableUnsolicited = 21,
    /// DELAY_MEASURE.
    DelayMeasure = 23,
    /// RESPONSE, to a request.
    Response = 129,
    /// UNSOLICITED_RESPONSE, to none.
    UnsolicitedResponse = 130,
}

/// All functions.
static FUNCTIONS: [Function; 12] = [
    Function::Confirm,
    Function::Read,
    Function::Write,
    Function::Select,
    Function::Operate,
    Function::DirectOperate,
    Function::DirectOperateNr,
    Function::EnableUnsolicited,
    Function::DisableUnsolicited,
    Function::DelayMeasure,
    Function::Response,
    Function::UnsolicitedResponse,
];

/// The function of this octet.
#[tactic(auto, unfolding(crate::specs::Table::function_of, crate::specs::Table::codes))]
fn line_of(octet: u8) -> Option<Function>
    ensures { result ≡ function_of octet }
{
    FUNCTIONS
        .iter()
        .copied()
        .find(|function| function.octet() == octet)
}

impl Function {
    /// The function of this octet, if it is one's.
    pub fn of_octet(octet: u8) -> Option<Function>
        ensures value { result ≡ function_of octet }
        ensures found { IfSome result (λ function. function_octet function ≡ octet) }
        ensures only { (function : FunctionValue) → function_octet function ≡ octet → result ≡ Some function }
    {
        line_of(octet)
    }

    /// Its octet.
    pub fn octet(self) -> u8
        ensures { result ≡ function_octet self }
    {
        self as u8
    }

    /// What the standard calls it, as `READ`.
    pub fn name(self) -> &'static str
        ensures { result.now ≡ function_name self }
    {
        match self {
            Function::Confirm => "CONFIRM",
            Function::Read => "READ",
            Function::Write => "WRITE",
            Function::Select => "SELECT",
            Function::Operate => "OPERATE",
            Function::DirectOperate => "DIRECT_OPERATE",
            Function::DirectOperateNr => "DIRECT_OPERATE_NR",
            Function::EnableUnsolicited => "ENABLE_UNSOLICITED",
            Function::DisableUnsolicited => "DISABLE_UNSOLICITED",
            Function::DelayMeasure => "DELAY_MEASURE",
            Function::Response => "RESPONSE",
            Function::UnsolicitedResponse => "UNSOLICITED_RESPONSE",
        }
    }

    /// Whether it is a response's, and not a request's.
    pub fn is_response(self) -> bool
        ensures { result ≡ is_response self }
    {
        matches!(self, Function::Response | Function::UnsolicitedResponse)
    }

    /// Whether its fragments carry commands: SELECT, OPERATE, DIRECT_OPERATE, DIRECT_OPERATE_NR, and
    /// the responses.
    pub fn carries_commands(self) -> bool
        ensures { result ≡ carries_commands self }
    {
        matches!(form_of(self), Form::Command | Form::Response)
    }
}
