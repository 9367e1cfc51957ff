ghost use Rattle.std.specs.Prelude.{◌≡◌, ◌≤◌, ◌==◌, [], ◌∷◌, IfOk, map};
ghost use Rattle.std.specs.List.{position, slice_split};
ghost use Rattle.std.specs.Option.{option_map};
ghost use Rattle.fal_script.specs.Arguments.{Halves, count_word as count_of, cred_parts as cred_parts_of, cred_word as cred_of, path_word as path_of, judged_name as judged_name_of, name_word as name_of, mode_word as mode_of, number_word as number_of, node_parts as node_parts_of, spelled_rule as spelled_rule_of, rule_word as rule_of};
ghost use Rattle.fal_base.specs.Names.{name_of as name_of_bytes};
ghost use Rattle.fal_script.specs.ReadAs.{ReadAs};

use crate::escapes::unescape;
use crate::fault::Broken;
use crate::numbers::{number_from_one, number_up_to, spelled_mode};
use crate::words::is_word;
use fal_base::{Cred, Name, NameFault, PathArg, Rule};
use std::alloc::{AllocError, Global};

/// The number of nodes or of lanes that a word spells: 1 to 16.
pub fn count_word(word: &[u8]) -> Option<u8>
    ensures { result ≡ count_of word.now }
{
    number_from_one(16, word)
}

// The parts of a word between colons.
fn parts(alloc: Global, word: &[u8]) -> Result<Vec<&[u8]>, AllocError>
    ensures { IfOk result (λ words. map (λ w. w.now) words.items ≡ slice_split (λ b. b == 58) word.now) }
{
    word.split(|b| *b == b':').collect(alloc)
}

// The place of the first colon.
fn colon(word: &[u8]) -> Option<usize>
    ensures { result ≡ position (λ b. b == 58) word.now }
{
    word.iter().position(|b| *b == b':')
}

// What stands before the first colon and what stands after it, where there is one.
fn halves(word: &[u8]) -> Option<(&[u8], &[u8])>
    ensures { Halves word.now (option_map (λ p. (p.0.now, p.1.now)) result) }
{
    match colon(word) {
        Some(at) => {
            let (front, rest) = word.split_at(at);
            let (_, back) = rest.split_at(1);
            Some((front, back))
        }
        None => None,
    }
}

fn cred_of_halves(uid: &[u8], gid: &[u8]) -> Option<Cred>
    ensures { result ≡ cred_parts_of (uid.now ∷ gid.now ∷ []) }
{
    let uid = number_up_to(4_294_967_295, uid)?;
    let gid = number_up_to(4_294_967_295, gid)?;
    Some(Cred {
        uid: uid as u32,
        gid: gid as u32,
    })
}

/// The caller that a word names: two numbers joined by one colon. Takes no memory.
pub fn cred_word(word: &[u8]) -> Option<Cred>
    ensures { result ≡ cred_of word.now }
{
    match halves(word) {
        Some((uid, gid)) => cred_of_halves(uid, gid),
        None => None,
    }
}

/// The path that a word spells, good or bad.
#[tactic(auto, unfolding(crate::specs::Arguments::path_word, crate::specs::Arguments::bytes_word))]
pub fn path_word(alloc: Global, word: &[u8]) -> Result<PathArg, Broken>
    ensures { ReadAs result (path_of word.now) }
{
    match unescape(alloc, word)? {
        Some(bytes) => Ok(PathArg::read(alloc, &bytes)?),
        None => Err(Broken::Rule(10)),
    }
}

fn judged_name(alloc: Global, bytes: &[u8]) -> Result<Name, Broken>
    ensures { ReadAs result (judged_name_of (name_of_bytes bytes.now)) }
{
    match Name::read(alloc, bytes) {
        Ok(name) => Ok(name),
        Err(NameFault::OutOfMemory) => Err(Broken::OutOfMemory),
        Err(_) => Err(Broken::Rule(12)),
    }
}

/// The name that a word spells.
#[tactic(auto, unfolding(crate::specs::Arguments::name_word, crate::specs::Arguments::bytes_word))]
pub fn name_word(alloc: Global, word: &[u8]) -> Result<Name, Broken>
    ensures { ReadAs result (name_of word.now) }
{
    match unescape(alloc, word)? {
        Some(bytes) => judged_name(alloc, &bytes),
        None => Err(Broken::Rule(10)),
    }
}

/// The mode that a word spells.
#[tactic(auto, unfolding(crate::specs::Arguments::mode_word))]
pub fn mode_word(word: &[u8]) -> Result<u16, Broken>
    ensures { ReadAs result (mode_of word.now) }
{
    match spelled_mode(word) {
        Some(mode) => Ok(mode),
        None => Err(Broken::Rule(11)),
    }
}

/// The number that a word spells, where it is at most this large.
#[tactic(auto, unfolding(crate::specs::Arguments::number_word))]
pub fn number_word(most: u64, word: &[u8]) -> Result<u64, Broken>
    ensures value { ReadAs result (number_of most word.now) }
    ensures small { IfOk result (λ n. n ≤ most) }
{
    match number_up_to(most, word) {
        Some(number) => Ok(number),
        None => Err(Broken::Rule(11)),
    }
}

fn node_parts(parts: &[&[u8]]) -> Option<Rule>
    ensures { result ≡ node_parts_of (map (λ w. w.now) parts.now) }
{
    match parts {
        [label, node] if is_word(label, b"node") => {
            let node = number_up_to(65_535, node)?;
            Some(Rule::Node(node as u16))
        }
        _ => None,
    }
}

#[tactic(auto, unfolding(crate::specs::Arguments::spelled_rule))]
fn spelled_rule(alloc: Global, word: &[u8]) -> Result<Option<Rule>, AllocError>
    ensures { IfOk result (λ rule. rule ≡ spelled_rule_of word.now) }
{
    if is_word(word, b"hash") {
        return Ok(Some(Rule::Hash));
    }
    if is_word(word, b"parent") {
        return Ok(Some(Rule::ByParent));
    }
    let parts = parts(alloc, word)?;
    Ok(node_parts(&parts))
}

/// The rule that a word spells: `hash`, `parent` or `node:K`.
#[tactic(auto, unfolding(crate::specs::Arguments::rule_word))]
pub fn rule_word(alloc: Global, word: &[u8]) -> Result<Rule, Broken>
    ensures { ReadAs result (rule_of word.now) }
{
    match spelled_rule(alloc, word)? {
        Some(rule) => Ok(rule),
        None => Err(Broken::Rule(13)),
    }
}
