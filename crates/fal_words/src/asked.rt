ghost use Rattle.std.specs.Prelude.{◌≡◌, ◌≤◌, IfOk, IfSome, None, Some, map, option_map, string_bytes};
ghost use Rattle.fal_words.specs.Asked.{asked_by as asked_by_of, asked_of, can_serve as can_serve_of, go_together as go_together_of, is_serial_mode, makes_script, mode_named as mode_of, number_chosen as number_of, texts_in};

use crate::chosen::{Chosen, choices};
use crate::fault::WordsFault;
use fal_script::number_up_to;
use std::alloc::Global;

/// How the calls of a script are done, and where the script comes from.
#[derive(Clone, Copy, Debug, PartialEq, Eq)]
pub enum Mode {
    /// The lanes run on threads.
    Run,
    /// Each call alone, in line order.
    Serial,
    /// As `Run`, of a script that is made.
    Generate,
    /// As `Serial`, of a script that is made.
    GenerateSerial,
}

impl Mode {
    fn makes_script(self) -> bool
        ensures { result ≡ makes_script self }
    {
        matches!(self, Mode::Generate | Mode::GenerateSerial)
    }

    fn is_serial(self) -> bool
        ensures { result ≡ is_serial_mode self }
    {
        matches!(self, Mode::Serial | Mode::GenerateSerial)
    }
}

/// What words ask for.
#[derive(Clone, Copy, Debug, PartialEq, Eq)]
pub struct Asked {
    pub mode: Mode,
    /// How many calls a batch takes at most.
    pub batch: u8,
    /// What a script is made from, and chaos is drawn from.
    pub seed: u64,
    /// How large a script is that is made.
    pub size: u16,
    /// Events are drawn before the calls are done.
    pub chaos: bool,
    /// Replies are compared with those of the plain tree.
    pub verify: bool,
}

fn mode_named(word: &str) -> Option<Mode>
    ensures { result ≡ mode_of word.now }
{
    match word {
        "run" => Some(Mode::Run),
        "serial" => Some(Mode::Serial),
        "gen" => Some(Mode::Generate),
        "gen-serial" => Some(Mode::GenerateSerial),
        _ => None,
    }
}

// The number of an option, or what stands for it where the option is not chosen.
fn number_chosen(least: u64, most: u64, default: u64, word: Option<&str>) -> Option<u64>
    requires { default ≤ most }
    ensures value { result ≡ number_of least most default (option_map (λ w. w.now) word.entry) }
    ensures small { IfSome result (λ n. n ≤ most) }
{
    let Some(word) = word else {
        return Some(default);
    };
    let number = number_up_to(most, word.as_bytes())?;
    if least <= number { Some(number) } else { None }
}

fn go_together(mode: Mode, chosen: &Chosen) -> bool
    ensures { result ≡ go_together_of mode (texts_in chosen.now) }
{
    (chosen.size.is_none() || mode.makes_script())
        && (!chosen.chaos || mode.is_serial())
        && (chosen.seed.is_none() || mode.makes_script() || chosen.chaos)
}

fn asked_by(chosen: &Chosen) -> Option<Asked>
    ensures { result ≡ asked_by_of (texts_in chosen.now) }
{
    let mode = mode_named(chosen.mode?)?;
    let batch = number_chosen(1, 64, 1, chosen.batch)?;
    let seed = number_chosen(0, u64::MAX, 1, chosen.seed)?;
    let size = number_chosen(1, 9_996, 1_000, chosen.size)?;
    if !go_together(mode, chosen) {
        return None;
    }
    Some(Asked {
        mode,
        batch: batch as u8,
        seed,
        size: size as u16,
        chaos: chosen.chaos,
        verify: chosen.verify,
    })
}

// What is served so far: the serial mode, with batches of one call.
fn can_serve(asked: &Asked) -> bool
    ensures { result ≡ can_serve_of asked.now }
{
    matches!(asked.mode, Mode::Serial) && asked.batch == 1 && !asked.chaos && !asked.verify
}

/// What these words ask for. Refused as usage exactly where they are not in the grammar, or ask for what is not served yet, but for want of memory.
pub fn read_words(alloc: Global, words: &[String]) -> Result<Asked, WordsFault>
    ensures asked { IfOk result (λ asked. asked_of (map string_bytes words.now) ≡ Some asked) }
    ensures usage { result ≡ Err WordsFault.Usage → asked_of (map string_bytes words.now) ≡ None }
{
    let chosen = choices(alloc, words)?;
    match asked_by(&chosen) {
        Some(asked) if can_serve(&asked) => Ok(asked),
        _ => Err(WordsFault::Usage),
    }
}
