//! Scripts of calls: which bytes are a script, which call each line makes and for whom, and a script's text. docs/SCRIPTS.md
//! describes the language.
#![tactic(auto)]

mod argument_lists;
mod arguments;
mod calls;
mod fault;
mod fields;
mod fork_calls;
mod lines;
mod numbers;
mod reading;
mod script;
mod words;
mod writable;
mod writing;

pub use fault::{ScriptFault, TextFault};
pub use lines::{Caller, ScriptLine};
pub use reading::read_script;
pub use script::Script;
pub use writing::script_text;
