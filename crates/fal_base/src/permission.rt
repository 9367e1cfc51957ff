ghost use Rattle.std.specs.Prelude.{◌≡◌};
ghost use Rattle.fal_base.specs.Permission.{may as may_of, class_of};

// The one class of bits that applies.
fn class(uid: u32, gid: u32, mode: u16, owner: u32, group: u32) -> u16
    ensures { result ≡ class_of uid gid mode owner group }
{
    if uid == owner {
        mode / 64 % 8
    } else if gid == group {
        mode / 8 % 8
    } else {
        mode % 8
    }
}

/// Whether this uid and gid may do all that is wanted of what belongs to `owner` and `group`: 4 to read, 2 to write, 1 to search or
/// execute. Uid 0 may do all; for anyone else exactly one class of bits applies (POSIX.1-2017, XBD 4.5). Takes no memory.
pub fn may(uid: u32, gid: u32, mode: u16, owner: u32, group: u32, want: u8) -> bool
    ensures { result ≡ may_of uid gid mode owner group want }
{
    uid == 0 || class(uid, gid, mode, owner, group) & u16::from(want) == u16::from(want)
}
