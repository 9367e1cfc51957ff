ghost use Rattle.std.specs.Prelude.{◌≡◌, ◌≤◌, ◌<◌, ◌+◌, ◌-◌, filter, find, length, fold, nat_lt, IfOk, vec_len, vec_capacity};
ghost use Rattle.std.specs.List.{list_any, position_or_len};
ghost use Rattle.fal_place.specs.Placement.{same_name, rule_found, with_change, without_name};

use fal_base::{Duplicate, Name, OutOfMemory, Rule, RuleChange};
use std::alloc::Global;

// A name's rule, which is Hash where none was set.
pub(crate) fn rule_of(rules: &[RuleChange], name: &Name) -> Rule
    ensures { result ≡ rule_found (find (λ change. same_name change.name name.now) rules.now) }
{
    let mut rest = rules;
    while let Some((first, others)) = rest.split_first() {
        if first.name == *name {
            return first.rule;
        }
        rest = others;
    }
    Rule::Hash
}

// Whether a name has a rule.
pub(crate) fn has_rule(rules: &[RuleChange], name: &Name) -> bool
    ensures { result ≡ list_any (λ change. same_name change.name name.now) rules.now }
{
    rules.iter().any(|change| change.name == *name)
}

// The same rules, in their order.
pub(crate) fn copied(alloc: Global, rules: &[RuleChange]) -> Result<Vec<RuleChange>, OutOfMemory>
    ensures { IfOk result (λ copied. copied.items ≡ rules.now) }
{
    let mut copied = Vec::with_capacity(alloc, rules.len())?;
    for change in rules {
        copied.push(change.copy()?)?;
    }
    Ok(copied)
}

// The rules set after a version, in their order.
pub(crate) fn changes_since(
    rules: &Vec<RuleChange>,
    version: u32,
) -> Result<Vec<RuleChange>, OutOfMemory>
    ensures { IfOk result (λ late. late.items ≡ filter (λ change. nat_lt version change.version) rules.now.items) }
{
    let mut late = Vec::new(*rules.allocator());
    for change in rules.as_slice() {
        if version < change.version {
            late.push(change.copy()?)?;
        }
    }
    Ok(late)
}

// The place of the first rule of a later version, or the end.
fn place_after(rules: &[RuleChange], version: u32) -> usize
    ensures place { result ≡ position_or_len (λ rule. nat_lt version rule.version) rules.now }
    ensures inside { result ≤ length rules.now }
{
    let mut place = 0;
    let mut rest = rules;
    while let Some((first, others)) = rest.split_first() {
        if version < first.version {
            return place;
        }
        place += 1;
        rest = others;
    }
    place
}

// Takes out the rule of a name, if it has one.
fn remove_name(rules: &mut Vec<RuleChange>, name: &Name)
    ensures rules { rules.new.items ≡ without_name name.now rules.old.items }
    ensures room { vec_capacity rules.old - vec_len rules.old ≤ vec_capacity rules.new - vec_len rules.new }
{
    rules.retain(|rule| rule.name != *name);
}

// Sets a rule, in place of its name's earlier one. Takes no memory.
pub(crate) fn put_rule(rules: &mut Vec<RuleChange>, change: RuleChange)
    requires { vec_len rules.old < vec_capacity rules.old }
    ensures rules { rules.new.items ≡ with_change rules.old.items change }
    ensures room { vec_capacity rules.old - vec_len rules.old ≤ (vec_capacity rules.new - vec_len rules.new) + 1 }
{
    remove_name(rules, &change.name);
    let place = place_after(rules, change.version);
    let Ok(()) = rules.insert(place, change) else {
        unreachable!()
    };
}

// Sets these rules, in their order. Takes no memory.
pub(crate) fn put_rules(rules: &mut Vec<RuleChange>, changes: Vec<RuleChange>)
    requires { length changes.items ≤ vec_capacity rules.old - vec_len rules.old }
    ensures { rules.new.items ≡ fold with_change rules.old.items changes.items }
{
    for change in changes {
        put_rule(rules, change);
    }
}
