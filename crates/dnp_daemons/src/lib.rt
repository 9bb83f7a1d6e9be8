//! What the program `dnp` does, as calls over values and streams: `answer_line` answers one line of octets,
//! `serve_stream` serves a stream of octets by a station, `ask_stream` asks tasks on one, `read_plan` reads a plan and
//! `read_script` a script for it, `run_script` runs a script, `print_report` prints what became of every event and
//! command, and `sim_text` does all four with two texts. What is about one line or one stream is that of `dnp_streams`,
//! what is about a plan's text that of `dnp_plantext`, and the link addresses are those of `dnp_concentrator`: all are
//! given on.
#![tactic(auto)]

pub mod number_laws;
mod plain;
mod report_text;
mod run;
mod said;
mod script;
pub mod script_laws;
mod sim;

pub use dnp_concentrator::addresses::{MASTER_BELOW, outstation_address};
pub use dnp_plantext::{
    PlanFault, PlanTextFault, PlannedOutstation, plan_fault, planned_outstation, read_plan,
};
pub use dnp_streams::{
    Above, Answer, AnswerFault, Asked, Asker, Below, Change, KeptAnswer, Living, Log, MAX_ADDRESS,
    MAX_CHARACTERS, MAX_INPUT, ServeFault, Served, Station, StationFault, TextFault, answer_line,
    ask_noted, ask_stream, laws, octet_of, read_address, read_text, serve_noted, serve_stream,
    text_fault,
};
pub use plain::{PlainWorld, plain_world};
pub use report_text::{PrintFault, print_report};
pub use run::{Nobody, Onlooker, ScriptStop, Scripted, run_script};
pub use script::{
    IdleLines, IdleReason, LineFault, ScriptFault, ScriptLine, WhichCentre, idle_lines, number_in,
    read_script, script_fault,
};
pub use sim::{Stores, loop_text, sim_text, sim_text_seen};
