//! The calls of a header: as a script spells them, of all operations.

use crate::broken::Broken;
use fal_base::Call;
use fal_script::{Broken as Refused, ScriptCall, cred_word, number_up_to, op_words, verb_word};
use std::alloc::Global;

// Why a scenario cannot be read, by what its call is refused for.
fn broken(refused: Refused) -> Broken {
    match refused {
        Refused::Rule(_) => Broken::Grammar,
        Refused::OutOfMemory => Broken::OutOfMemory,
    }
}

/// `LANE UID:GID OPERATION ARGUMENTS`, where there are so many lanes.
pub fn call(alloc: Global, lanes: u8, words: &[&[u8]]) -> Result<ScriptCall, Broken> {
    let [lane, cred, verb, arguments @ ..] = words else {
        return Err(Broken::Grammar);
    };
    let Some(lane) = number_up_to(u64::from(lanes), lane) else {
        return Err(Broken::Grammar);
    };
    let cred = cred_word(cred).ok_or(Broken::Grammar)?;
    let verb = verb_word(verb).ok_or(Broken::Grammar)?;
    let op = op_words(alloc, verb, arguments).map_err(broken)?;
    Ok(ScriptCall {
        lane: lane as u8,
        call: Call { cred, op },
    })
}
