//! Fields that are one number, big endian, and those of a few numbers.

ghost use Rattle.std.specs.Prelude.{◌≡◌, ◌++◌, OnOk};
ghost use Rattle.fal_wire.specs.declared.fault.Stop.TheVariants.{Fault};
ghost use Rattle.fal_wire.specs.declared.fault.WireFault.TheVariants.{Length, Value};
ghost use Rattle.fal_wire.specs.Format.{byte, number, number_at, byte_at, place as place_of};
ghost use Rattle.fal_wire.specs.Gives.{Gives};
ghost use Rattle.fal_wire.specs.Numbers.{node_field, asker_field, operation_field, version_field, version_above, mode_field, want_field, size_field, ino_field, one_or_two, at_most_two, rule_count, lane_field, ordinal_field, cred_field, id_field};

use crate::fault::{Stop, WireFault};
use byteorder::{BigEndian, ByteOrder};
use fal_base::{CallId, Cred, OutOfMemory};

// The place of the first of the bytes that are left before the body's end.
fn place(end: usize, bytes: &[u8]) -> usize
    ensures { result ≡ place_of end bytes.now }
{
    end.saturating_sub(bytes.len())
}

// The field that begins with these bytes reaches past the body.
pub fn past_body(end: usize, bytes: &[u8]) -> Stop
    ensures { result ≡ Fault (Length (place_of end bytes.now)) }
{
    Stop::Fault(WireFault::Length {
        at: place(end, bytes),
    })
}

// The value of the field that begins with these bytes is not allowed.
pub fn bad_value(end: usize, bytes: &[u8]) -> Stop
    ensures { result ≡ Fault (Value (place_of end bytes.now)) }
{
    Stop::Fault(WireFault::Value {
        at: place(end, bytes),
    })
}

pub fn read_u8(end: usize, bytes: &[u8]) -> Result<(u8, &[u8]), Stop>
    ensures { Gives (λ x. (x.0, x.1.now)) result (byte_at end bytes.now) }
{
    match bytes {
        [] => Err(past_body(end, bytes)),
        [first, rest @ ..] => Ok((*first, rest)),
    }
}

#[tactic(auto, unfolding(crate::specs::Format::number_at))]
pub fn read_u16(end: usize, bytes: &[u8]) -> Result<(u16, &[u8]), Stop>
    ensures { Gives (λ x. (x.0, x.1.now)) result (number_at 2 end bytes.now) }
{
    if bytes.len() < 2 {
        return Err(past_body(end, bytes));
    }
    let (_, rest) = bytes.split_at(2);
    Ok((BigEndian::read_u16(bytes), rest))
}

#[tactic(auto, unfolding(crate::specs::Format::number_at))]
pub fn read_u32(end: usize, bytes: &[u8]) -> Result<(u32, &[u8]), Stop>
    ensures { Gives (λ x. (x.0, x.1.now)) result (number_at 4 end bytes.now) }
{
    if bytes.len() < 4 {
        return Err(past_body(end, bytes));
    }
    let (_, rest) = bytes.split_at(4);
    Ok((BigEndian::read_u32(bytes), rest))
}

#[tactic(auto, unfolding(crate::specs::Format::number_at))]
pub fn read_u64(end: usize, bytes: &[u8]) -> Result<(u64, &[u8]), Stop>
    ensures { Gives (λ x. (x.0, x.1.now)) result (number_at 8 end bytes.now) }
{
    if bytes.len() < 8 {
        return Err(past_body(end, bytes));
    }
    let (_, rest) = bytes.split_at(8);
    Ok((BigEndian::read_u64(bytes), rest))
}

#[tactic(auto, unfolding(crate::specs::Numbers::node_field))]
pub fn read_node(end: usize, bytes: &[u8]) -> Result<(u8, &[u8]), Stop>
    ensures { Gives (λ x. (x.0, x.1.now)) result (node_field.read end bytes.now) }
{
    let (number, rest) = read_u8(end, bytes)?;
    if number < 16 {
        Ok((number, rest))
    } else {
        Err(bad_value(end, bytes))
    }
}

#[tactic(auto, unfolding(crate::specs::Numbers::asker_field))]
pub fn read_asker(end: usize, bytes: &[u8]) -> Result<(u8, &[u8]), Stop>
    ensures { Gives (λ x. (x.0, x.1.now)) result (asker_field.read end bytes.now) }
{
    let (number, rest) = read_u8(end, bytes)?;
    if number < 16 || number == 255 {
        Ok((number, rest))
    } else {
        Err(bad_value(end, bytes))
    }
}

#[tactic(auto, unfolding(crate::specs::Numbers::operation_field))]
pub fn read_operation(end: usize, bytes: &[u8]) -> Result<(u32, &[u8]), Stop>
    ensures { Gives (λ x. (x.0, x.1.now)) result (operation_field.read end bytes.now) }
{
    let (number, rest) = read_u32(end, bytes)?;
    if number > 0 {
        Ok((number, rest))
    } else {
        Err(bad_value(end, bytes))
    }
}

#[tactic(auto, unfolding(crate::specs::Numbers::version_field))]
pub fn read_version(end: usize, bytes: &[u8]) -> Result<(u32, &[u8]), Stop>
    ensures { Gives (λ x. (x.0, x.1.now)) result (version_field.read end bytes.now) }
{
    let (number, rest) = read_u32(end, bytes)?;
    if number > 0 {
        Ok((number, rest))
    } else {
        Err(bad_value(end, bytes))
    }
}

#[tactic(auto, unfolding(crate::specs::Numbers::mode_field))]
pub fn read_mode(end: usize, bytes: &[u8]) -> Result<(u16, &[u8]), Stop>
    ensures { Gives (λ x. (x.0, x.1.now)) result (mode_field.read end bytes.now) }
{
    let (number, rest) = read_u16(end, bytes)?;
    if number < 512 {
        Ok((number, rest))
    } else {
        Err(bad_value(end, bytes))
    }
}

#[tactic(auto, unfolding(crate::specs::Numbers::want_field))]
pub fn read_want(end: usize, bytes: &[u8]) -> Result<(u8, &[u8]), Stop>
    ensures { Gives (λ x. (x.0, x.1.now)) result (want_field.read end bytes.now) }
{
    let (number, rest) = read_u8(end, bytes)?;
    if number < 8 {
        Ok((number, rest))
    } else {
        Err(bad_value(end, bytes))
    }
}

#[tactic(auto, unfolding(crate::specs::Numbers::size_field))]
pub fn read_size(end: usize, bytes: &[u8]) -> Result<(u64, &[u8]), Stop>
    ensures { Gives (λ x. (x.0, x.1.now)) result (size_field.read end bytes.now) }
{
    let (number, rest) = read_u64(end, bytes)?;
    if number < 1 << 63 {
        Ok((number, rest))
    } else {
        Err(bad_value(end, bytes))
    }
}

#[tactic(auto, unfolding(crate::specs::Numbers::ino_field))]
pub fn read_ino(end: usize, bytes: &[u8]) -> Result<(u64, &[u8]), Stop>
    ensures { Gives (λ x. (x.0, x.1.now)) result (ino_field.read end bytes.now) }
{
    let (number, rest) = read_u64(end, bytes)?;
    if number > 0 {
        Ok((number, rest))
    } else {
        Err(bad_value(end, bytes))
    }
}

#[tactic(auto, unfolding(crate::specs::Numbers::one_or_two))]
pub fn read_one_or_two(end: usize, bytes: &[u8]) -> Result<(u8, &[u8]), Stop>
    ensures { Gives (λ x. (x.0, x.1.now)) result (one_or_two.read end bytes.now) }
{
    let (number, rest) = read_u8(end, bytes)?;
    if number > 0 && number < 3 {
        Ok((number, rest))
    } else {
        Err(bad_value(end, bytes))
    }
}

#[tactic(auto, unfolding(crate::specs::Numbers::at_most_two))]
pub fn read_at_most_two(end: usize, bytes: &[u8]) -> Result<(u8, &[u8]), Stop>
    ensures { Gives (λ x. (x.0, x.1.now)) result (at_most_two.read end bytes.now) }
{
    let (number, rest) = read_u8(end, bytes)?;
    if number < 3 {
        Ok((number, rest))
    } else {
        Err(bad_value(end, bytes))
    }
}

#[tactic(auto, unfolding(crate::specs::Numbers::rule_count))]
pub fn read_rule_count(end: usize, bytes: &[u8]) -> Result<(u16, &[u8]), Stop>
    ensures { Gives (λ x. (x.0, x.1.now)) result (rule_count.read end bytes.now) }
{
    let (number, rest) = read_u16(end, bytes)?;
    if number <= 1024 {
        Ok((number, rest))
    } else {
        Err(bad_value(end, bytes))
    }
}

#[tactic(auto, unfolding(crate::specs::Numbers::lane_field))]
fn read_lane(end: usize, bytes: &[u8]) -> Result<(u8, &[u8]), Stop>
    ensures { Gives (λ x. (x.0, x.1.now)) result (lane_field.read end bytes.now) }
{
    let (number, rest) = read_u8(end, bytes)?;
    if number > 0 && number < 17 {
        Ok((number, rest))
    } else {
        Err(bad_value(end, bytes))
    }
}

#[tactic(auto, unfolding(crate::specs::Numbers::ordinal_field))]
fn read_ordinal(end: usize, bytes: &[u8]) -> Result<(u32, &[u8]), Stop>
    ensures { Gives (λ x. (x.0, x.1.now)) result (ordinal_field.read end bytes.now) }
{
    let (number, rest) = read_u32(end, bytes)?;
    if number > 0 {
        Ok((number, rest))
    } else {
        Err(bad_value(end, bytes))
    }
}

#[tactic(auto, unfolding(crate::specs::Numbers::version_above))]
pub fn read_version_above(end: usize, old: u32, bytes: &[u8]) -> Result<(u32, &[u8]), Stop>
    ensures { Gives (λ x. (x.0, x.1.now)) result ((version_above old).read end bytes.now) }
{
    let (number, rest) = read_u32(end, bytes)?;
    if number > old {
        Ok((number, rest))
    } else {
        Err(bad_value(end, bytes))
    }
}

#[tactic(auto, unfolding(crate::specs::Numbers::cred_field))]
pub fn read_cred(end: usize, bytes: &[u8]) -> Result<(Cred, &[u8]), Stop>
    ensures { Gives (λ x. (x.0, x.1.now)) result (cred_field.read end bytes.now) }
{
    let (uid, rest) = read_u32(end, bytes)?;
    let (gid, rest) = read_u32(end, rest)?;
    Ok((Cred { uid, gid }, rest))
}

#[tactic(auto, unfolding(crate::specs::Numbers::id_field))]
pub fn read_id(end: usize, bytes: &[u8]) -> Result<(CallId, &[u8]), Stop>
    ensures { Gives (λ x. (x.0, x.1.now)) result (id_field.read end bytes.now) }
{
    let (client, rest) = read_lane(end, bytes)?;
    let (seq, rest) = read_ordinal(end, rest)?;
    let (attempt, rest) = read_ordinal(end, rest)?;
    let (hop, rest) = read_u32(end, rest)?;
    let id = CallId {
        client,
        seq,
        attempt,
        hop,
    };
    Ok((id, rest))
}

pub fn put_u8(into: &mut Vec<u8>, n: u8) -> Result<(), OutOfMemory>
    ensures { OnOk result (into.new.items ≡ into.old.items ++ byte.spell n) }
{
    into.push(n)?;
    Ok(())
}

#[tactic(auto, unfolding(crate::specs::Format::number_spelling))]
pub fn put_u16(into: &mut Vec<u8>, n: u16) -> Result<(), OutOfMemory>
    ensures { OnOk result (into.new.items ≡ into.old.items ++ (number 2).spell n) }
{
    let mut bytes = [0; 2];
    BigEndian::write_u16(&mut bytes, n);
    into.extend_from_slice(&bytes)?;
    Ok(())
}

#[tactic(auto, unfolding(crate::specs::Format::number_spelling))]
pub fn put_u32(into: &mut Vec<u8>, n: u32) -> Result<(), OutOfMemory>
    ensures { OnOk result (into.new.items ≡ into.old.items ++ (number 4).spell n) }
{
    let mut bytes = [0; 4];
    BigEndian::write_u32(&mut bytes, n);
    into.extend_from_slice(&bytes)?;
    Ok(())
}

#[tactic(auto, unfolding(crate::specs::Format::number_spelling))]
pub fn put_u64(into: &mut Vec<u8>, n: u64) -> Result<(), OutOfMemory>
    ensures { OnOk result (into.new.items ≡ into.old.items ++ (number 8).spell n) }
{
    let mut bytes = [0; 8];
    BigEndian::write_u64(&mut bytes, n);
    into.extend_from_slice(&bytes)?;
    Ok(())
}

#[tactic(auto, unfolding(crate::specs::Numbers::cred_field))]
pub fn put_cred(into: &mut Vec<u8>, cred: &Cred) -> Result<(), OutOfMemory>
    ensures { OnOk result (into.new.items ≡ into.old.items ++ cred_field.spell cred.now) }
{
    put_u32(into, cred.uid)?;
    put_u32(into, cred.gid)?;
    Ok(())
}

#[tactic(auto, unfolding(crate::specs::Numbers::id_field, crate::specs::Numbers::lane_field, crate::specs::Numbers::ordinal_field))]
pub fn put_id(into: &mut Vec<u8>, id: &CallId) -> Result<(), OutOfMemory>
    ensures { OnOk result (into.new.items ≡ into.old.items ++ id_field.spell id.now) }
{
    put_u8(into, id.client)?;
    put_u32(into, id.seq)?;
    put_u32(into, id.attempt)?;
    put_u32(into, id.hop)?;
    Ok(())
}
