ghost use Rattle.std.specs.Prelude.{◌≡◌, ◌≤◌, ◌↔◌, IsTrue, None, length, nat_le, sum_by};
ghost use Rattle.std.specs.List.{All, list_all};
ghost use Rattle.fal_base.specs.Paths.{is_dot as is_dot_name};
ghost use Rattle.fal_base.specs.declared.call.Call.{Call as CallSeen};
ghost use Rattle.fal_base.specs.declared.op.Op.TheVariants as Op;
ghost use Rattle.fal_base.specs.OpPaths.{bad_path, fault_of, paths_of};
ghost use Rattle.fal_base.specs.PathArgs.{IsRead};
ghost use Rattle.fal_story.specs.Clusters.{IsCall, IsCluster, IsCallInRange, IsRuleInRange};
ghost use Rattle.fal_base.specs.Names.{is_name as is_name_of};
ghost use Rattle.fal_base.specs.Paths.{path_bytes};
ghost use Rattle.fal_wire.specs.Names.{path_arg_field, path_field};
ghost use Rattle.fal_wire.specs.Ops.{op_field};
ghost use Rattle.fal_story.specs.Held.{ArePathsHeld};

use fal_base::{Call, CallList, Config, Cred, Name, Op, PathArg, Rule};

/// A size is below this.
const SIZES: u64 = 1 << 63;

fn is_dot(bytes: &[u8]) -> bool
    ensures { result ≡ is_dot_name bytes.now }
{
    bytes == b".".as_slice() || bytes == b"..".as_slice()
}

// Whether the bytes are a name, by the rules of `Name::read`.
#[tactic(auto, unfolding(fal_base::specs::Names::is_name))]
fn is_name(bytes: &[u8]) -> bool
    ensures { result ≡ is_name_of bytes.now }
{
    if bytes.is_empty() {
        return false;
    }
    if bytes.len() > 255 {
        return false;
    }
    if bytes.contains(&b'/') {
        return false;
    }
    if bytes.contains(&0) {
        return false;
    }
    !is_dot(bytes)
}

fn are_names(names: &[Name]) -> bool
    ensures { result ≡ list_all is_name_of names.now }
{
    names.iter().all(|name| is_name(name.bytes()))
}

// Whether the path of these names has at most 4,095 bytes.
fn is_short(names: &[Name]) -> bool
    ensures { result ≡ nat_le (path_bytes names.now) 4095 }
{
    let mut bytes = 0;
    for name in names {
        bytes += name.bytes().len() + 1;
        if bytes > 4095 {
            return false;
        }
    }
    true
}

// Whether a record can hold the path.
fn is_path(names: &[Name]) -> bool
    ensures { IsTrue result ↔ path_field.Fits names.now }
{
    is_short(names) && are_names(names)
}

// Whether a bad path has the fault of its bytes, and a record can hold a good one and the rest of the call.
fn is_held(path: &PathArg, rest: bool) -> bool
    ensures { IsTrue result ↔ IsRead path.now × (fault_of path.now ≡ None → path_arg_field.Fits path.now × IsTrue rest) }
{
    match path {
        PathArg::Good(path) => rest && is_path(path.names()),
        PathArg::Bad { .. } => path.is_read(),
    }
}

// The same of the two paths of a rename.
fn are_held(old: &PathArg, new: &PathArg) -> bool
    ensures { IsTrue result ↔ ArePathsHeld old.now new.now }
{
    match old {
        PathArg::Good(from) => match new {
            PathArg::Good(to) => is_path(from.names()) && is_path(to.names()),
            PathArg::Bad { .. } => new.is_read(),
        },
        PathArg::Bad { .. } => old.is_read() && new.is_read(),
    }
}

// The same of a chown, whose numbers are as wide as their fields.
fn is_chown(path: &PathArg, uid: u32, gid: u32) -> bool
    ensures { IsTrue result ↔ All IsRead (paths_of (Op.Chown path.now uid gid)) × (bad_path (Op.Chown path.now uid gid) ≡ None → op_field.Fits (Op.Chown path.now uid gid)) }
{
    is_held(path, true)
}

// Whether the number of the node that the rule names is as wide as its field.
fn is_rule(rule: &Rule) -> bool
    ensures { IsTrue result ↔ IsRuleInRange rule.now }
{
    match rule {
        Rule::Hash => true,
        Rule::ByParent => true,
        Rule::Node(node) => u32::from(*node) < 65_536,
    }
}

// Whether a record can hold the name and the rule.
fn is_placing(name: &Name, rule: &Rule) -> bool
    ensures { IsTrue result ↔ IsTrue (is_name_of name.now) × IsRuleInRange rule.now }
{
    is_name(name.bytes()) && is_rule(rule)
}

// Whether a bad path has the fault of its bytes, and a record can hold the operation where its path is good.
fn is_op(op: &Op) -> bool
    ensures { IsTrue result ↔ All IsRead (paths_of op.now) × (bad_path op.now ≡ None → op_field.Fits op.now) }
{
    match op {
        Op::Mkdir { path, mode } => is_held(path, *mode < 512),
        Op::Create { path, mode } => is_held(path, *mode < 512),
        Op::Stat { path } => is_held(path, true),
        Op::Access { path, want } => is_held(path, *want < 8),
        Op::Truncate { path, size } => is_held(path, *size < SIZES),
        Op::Unlink { path } => is_held(path, true),
        Op::Chmod { path, mode } => is_held(path, *mode < 512),
        Op::Chown { path, uid, gid } => is_chown(path, *uid, *gid),
        Op::Rmdir { path } => is_held(path, true),
        Op::Rename { old, new } => are_held(old, new),
        Op::List { path } => is_held(path, true),
        Op::Place { name, rule } => is_placing(name, rule),
    }
}

fn is_call(call: &Call) -> bool
    ensures { IsTrue result ↔ IsCall call.now }
{
    // who calls always fits, since these numbers are as wide as their fields
    let Cred {
        uid: _uid,
        gid: _gid,
    } = call.cred;
    is_op(&call.op)
}

/// A call may stand in a cluster where its paths and its numbers are in range.
pub fn calls_in_range_may_run()
    ensures { (call : CallSeen) → IsCallInRange call → IsCall call }
{}

fn are_calls(calls: &[Call]) -> bool
    ensures { IsTrue result ↔ All IsCall calls.now }
{
    calls.iter().all(is_call)
}

fn are_lanes(lanes: &[CallList]) -> bool
    ensures { IsTrue result ↔ All (λ calls. All IsCall calls) lanes.now }
{
    lanes.iter().all(|calls| are_calls(calls.as_slice()))
}

// Whether the lanes have at most 10,000 calls.
fn has_few_calls(lanes: &[CallList]) -> bool
    ensures { result ≡ nat_le (sum_by (λ calls. length calls) lanes.now) 10000 }
{
    let mut calls = 0;
    for lane in lanes {
        if lane.len() > 10_000 - calls {
            return false;
        }
        calls += lane.len();
    }
    true
}

// Whether there are 1 to 16 of them.
fn is_few(count: usize) -> bool
    ensures { IsTrue result ↔ (1 ≤ count) × (count ≤ 16) }
{
    1 <= count && count <= 16
}

/// Whether the cluster may run: 1 to 16 nodes, 1 to 16 lanes, batches of 1 to 64 calls and at most 10,000 calls, each of any
/// operation but list. A bad path has the fault of its bytes, and where the paths are good a record can hold the call (a mode of
/// nine bits, a `want` of three, a size below 2^63, and at most 4,095 bytes of names in a path, each with the slash before it). Takes no
/// memory.
pub fn may_run(config: &Config) -> bool
    ensures { IsTrue result ↔ IsCluster config.now }
{
    let lanes = config.lanes.as_slice();
    if !is_few(usize::from(config.nodes)) {
        return false;
    }
    if !is_few(lanes.len()) {
        return false;
    }
    if config.batch < 1 {
        return false;
    }
    if config.batch > 64 {
        return false;
    }
    has_few_calls(lanes) && are_lanes(lanes)
}
