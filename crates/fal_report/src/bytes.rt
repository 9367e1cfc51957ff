ghost use Rattle.std.specs.Prelude.{◌≡◌, ◌++◌, ◌∷◌, ◌<◌, OnOk};
ghost use Rattle.std.specs.Fmt.{decimal};
ghost use Rattle.std.specs.List.{list_all};
ghost use Rattle.fal_report.specs.Escapes.{is_plain_byte, hex_digit as hex_digit_of, escaped_byte, escaped, each_after};

use fal_base::{Name, OutOfMemory};
use itoa::Buffer;

pub(crate) fn put(out: &mut Vec<u8>, bytes: &[u8]) -> Result<(), OutOfMemory>
    ensures { OnOk result (out.new.items ≡ out.old.items ++ bytes.now) }
{
    out.extend_from_slice(bytes)?;
    Ok(())
}

// The digits of a number. Most numbers of a transcript have one.
pub(crate) fn put_number(out: &mut Vec<u8>, n: u64) -> Result<(), OutOfMemory>
    ensures { OnOk result (out.new.items ≡ out.old.items ++ decimal n) }
{
    if n < 10 {
        out.push(b'0' + n as u8)?;
        return Ok(());
    }
    let mut buffer = Buffer::new();
    put(out, buffer.format(n).as_bytes())
}

fn is_plain(byte: u8) -> bool
    ensures { result ≡ is_plain_byte byte }
{
    32 < byte && byte < 127 && byte != b'%'
}

fn are_plain(bytes: &[u8]) -> bool
    ensures { result ≡ list_all is_plain_byte bytes.now }
{
    bytes.iter().all(|byte| is_plain(*byte))
}

fn hex_digit(n: u8) -> u8
    requires { n < 16 }
    ensures { result ≡ hex_digit_of n }
{
    if n < 10 { 48 + n } else { 55 + n }
}

#[tactic(auto, unfolding(crate::specs::Escapes::escaped_byte))]
fn put_byte(out: &mut Vec<u8>, byte: u8) -> Result<(), OutOfMemory>
    ensures { OnOk result (out.new.items ≡ out.old.items ++ escaped_byte byte) }
{
    if is_plain(byte) {
        put(out, &[byte])?;
        return Ok(());
    }
    put(out, &[b'%', hex_digit(byte / 16), hex_digit(byte % 16)])?;
    Ok(())
}

// Mostly all bytes are plain and go at once.
pub(crate) fn put_escaped(out: &mut Vec<u8>, bytes: &[u8]) -> Result<(), OutOfMemory>
    ensures { OnOk result (out.new.items ≡ out.old.items ++ escaped bytes.now) }
{
    if are_plain(bytes) {
        put(out, bytes)?;
        return Ok(());
    }
    put_each(out, bytes)?;
    Ok(())
}

fn put_each(out: &mut Vec<u8>, bytes: &[u8]) -> Result<(), OutOfMemory>
    ensures { OnOk result (out.new.items ≡ out.old.items ++ escaped bytes.now) }
{
    for byte in bytes {
        put_byte(out, *byte)?;
    }
    Ok(())
}

fn put_after(out: &mut Vec<u8>, byte: u8, name: &Name) -> Result<(), OutOfMemory>
    ensures { OnOk result (out.new.items ≡ out.old.items ++ byte ∷ escaped name.now) }
{
    put(out, &[byte])?;
    put_escaped(out, name.bytes())?;
    Ok(())
}

// Each name after this byte.
pub(crate) fn put_each_after(out: &mut Vec<u8>, byte: u8, names: &[Name]) -> Result<(), OutOfMemory>
    ensures { OnOk result (out.new.items ≡ out.old.items ++ each_after byte names.now) }
{
    for name in names {
        put_after(out, byte, name)?;
    }
    Ok(())
}
