ghost use Rattle.std.specs.Prelude.{◌≡◌};
ghost use Rattle.fal_node.specs.State.{blocked_names as names_blocked};

use fal_base::Barred;

/// The names that an operation keeps blocked while their rows move.
#[derive(Debug, Drop)]
pub struct Blocking {
    pub operation: u32,
    pub names: Barred,
}

// The names that are blocked: these, where nothing is.
pub(crate) fn blocked_names<'a>(blocked: &'a Option<Blocking>, none: &'a Barred) -> &'a Barred
    requires { none.now ≡ Barred.Nothing }
    ensures { result.now ≡ names_blocked blocked.now }
{
    match blocked {
        None => none,
        Some(blocking) => &blocking.names,
    }
}
