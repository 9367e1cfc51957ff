ghost use Rattle.std.specs.Prelude.{◌≡◌, ◌≢◌, IfOk, None, Some, map, string_bytes};
ghost use Rattle.clap.specs.Simple.{app_of, with_rule};
ghost use Rattle.clap.specs.Matches.{found_of};
ghost use Rattle.fal_words.specs.Asked.{texts_chosen, texts_in};
ghost use Rattle.fal_words.specs.Choices.{choices_of};
ghost use Rattle.fal_words.specs.Matches.{AreFound, bare_app, falcon_app, flag_rule, option_rule};

use crate::fault::WordsFault;
use clap::error::ErrorKind;
use clap::{Arg, ArgAction, ArgMatches, Command};
use std::alloc::{AllocError, Global};

/// What words choose, by name.
#[derive(Clone, Copy, Debug)]
pub struct Chosen<'a> {
    pub mode: Option<&'a str>,
    pub batch: Option<&'a str>,
    pub seed: Option<&'a str>,
    pub size: Option<&'a str>,
    pub chaos: bool,
    pub verify: bool,
}

// The command without arguments.
fn bare<'a>(alloc: Global) -> Command<'a>
    ensures { app_of result ≡ bare_app }
{
    Command::new(alloc, "falcon")
        .no_binary_name(true)
        .disable_help_flag(true)
}

// With an option that takes a text.
fn with_option<'a>(
    alloc: Global,
    command: Command<'a>,
    name: &'a str,
) -> Result<Command<'a>, AllocError>
    ensures { IfOk result (λ more. app_of more ≡ with_rule (app_of command.entry) (option_rule name.entry.now)) }
{
    command.arg(Arg::new(alloc, name).long(name))
}

// With one that takes none.
fn with_flag<'a>(
    alloc: Global,
    command: Command<'a>,
    name: &'a str,
) -> Result<Command<'a>, AllocError>
    ensures { IfOk result (λ more. app_of more ≡ with_rule (app_of command.entry) (flag_rule name.entry.now)) }
{
    command.arg(Arg::new(alloc, name).long(name).action(ArgAction::SetTrue))
}

// The command line as `clap` reads it. The mode is the one word that is no option, and the values of options are texts.
fn command<'a>(alloc: Global) -> Result<Command<'a>, AllocError>
    ensures { IfOk result (λ command. app_of command ≡ falcon_app) }
{
    let mode = bare(alloc).arg(Arg::new(alloc, "mode"))?;
    let batch = with_option(alloc, mode, "batch")?;
    let seed = with_option(alloc, batch, "seed")?;
    let size = with_option(alloc, seed, "size")?;
    let chaos = with_flag(alloc, size, "chaos")?;
    with_flag(alloc, chaos, "verify")
}

// Words that are refused are usage, unless memory was refused.
fn fault_by(kind: ErrorKind) -> WordsFault
    ensures { result ≡ WordsFault.Usage → kind ≢ ErrorKind.OutOfMemory }
{
    match kind {
        ErrorKind::OutOfMemory => WordsFault::OutOfMemory,
        _ => WordsFault::Usage,
    }
}

fn matches<'a>(alloc: Global, words: &'a [String]) -> Result<ArgMatches<'a>, WordsFault>
    ensures found { IfOk result (λ matches. AreFound (found_of matches) (map string_bytes words.entry.now)) }
    ensures usage { result ≡ Err WordsFault.Usage → choices_of (map string_bytes words.entry.now) ≡ None }
{
    match command(alloc)?.try_get_matches_from(words) {
        Ok(matches) => Ok(matches),
        Err(error) => Err(fault_by(error.kind())),
    }
}

/// What these words choose. Refused as usage where they are no choices, or choose something twice.
pub fn choices<'a>(alloc: Global, words: &'a [String]) -> Result<Chosen<'a>, WordsFault>
    ensures chosen { IfOk result (λ chosen. texts_chosen (map string_bytes words.entry.now) ≡ Some (texts_in chosen)) }
    ensures usage { result ≡ Err WordsFault.Usage → choices_of (map string_bytes words.entry.now) ≡ None }
{
    let matches = matches(alloc, words)?;
    Ok(Chosen {
        mode: matches.get_str("mode"),
        batch: matches.get_str("batch"),
        seed: matches.get_str("seed"),
        size: matches.get_str("size"),
        chaos: matches.get_flag("chaos"),
        verify: matches.get_flag("verify"),
    })
}
