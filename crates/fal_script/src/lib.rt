//! Scripts: what their bytes spell, and the cluster that they ask for.
//!
//! A script is read line by line and word by word. Each function here answers what the definition of the same piece in `specs/` gives.
#![tactic(auto)]

mod arguments;
mod calls;
mod configs;
mod escapes;
mod fault;
mod handed;
mod law;
mod lines;
mod numbers;
mod printing;
mod reading;
mod script;
mod verbs;
mod words;

pub use arguments::{cred_word, path_word};
pub use calls::{call_words, op_words};
pub use configs::config_of;
pub use fault::{Broken, ScriptFault};
pub use handed::into_config;
pub use law::scripts_are_in_range;
pub use numbers::number_up_to;
pub use printing::print;
pub use reading::read;
pub use script::{LineList, Script, ScriptCall};
pub use verbs::{Verb, verb_word};
