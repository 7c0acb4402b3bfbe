ghost use Rattle.std.specs.Prelude.{◌≡◌, ◌++◌, ◌∷◌, [], OnOk, IfOk, codes};
ghost use Rattle.layout_types.specs.Lines.{line, number_line, signed_line, bool_line, opaque_line, optional_lines, member_front};

use itoa::Buffer;
use osd_lists::{Bytes, Memory};
use std::alloc::Global;

fn put_line(out: &mut Bytes, front: &[u8], name: &[u8], value: &[u8]) -> Result<(), Memory>
    ensures { OnOk result (out.new ≡ out.old ++ line (front.now ++ name.now) value.now) }
{
    out.extend_from_slice(front)?;
    out.extend_from_slice(name)?;
    out.push(b' ')?;
    out.extend_from_slice(value)?;
    out.push(b'\n')
}

#[tactic(auto, unfolding(crate::specs::Lines::number_line))]
pub(crate) fn put_number(out: &mut Bytes, front: &[u8], name: &[u8], n: u64) -> Result<(), Memory>
    ensures { OnOk result (out.new ≡ out.old ++ number_line (front.now ++ name.now) n) }
{
    put_line(out, front, name, Buffer::new().format(n).as_bytes())
}

#[tactic(auto, unfolding(crate::specs::Lines::signed_line))]
pub(crate) fn put_signed(out: &mut Bytes, front: &[u8], name: &[u8], z: i64) -> Result<(), Memory>
    ensures { OnOk result (out.new ≡ out.old ++ signed_line (front.now ++ name.now) z) }
{
    put_line(out, front, name, Buffer::new().format(z).as_bytes())
}

pub(crate) fn put_bool(out: &mut Bytes, front: &[u8], name: &[u8], b: bool) -> Result<(), Memory>
    ensures { OnOk result (out.new ≡ out.old ++ bool_line (front.now ++ name.now) b) }
{
    put_number(out, front, name, if b { 1 } else { 0 })
}

#[tactic(auto, unfolding(crate::specs::Lines::opaque_line))]
pub(crate) fn put_opaque(
    alloc: Global,
    out: &mut Bytes,
    front: &[u8],
    name: &[u8],
    bytes: &[u8],
) -> Result<(), Memory>
    ensures { OnOk result (out.new ≡ out.old ++ opaque_line (front.now ++ name.now) bytes.now) }
{
    if bytes.is_empty() {
        return put_line(out, front, name, b"-");
    }
    let text = hex::encode(alloc, bytes)?;
    put_line(out, front, name, text.as_bytes())
}

pub(crate) fn put_u32(out: &mut Bytes, front: &[u8], name: &[u8], n: u32) -> Result<(), Memory>
    ensures { OnOk result (out.new ≡ out.old ++ number_line (front.now ++ name.now) n) }
{
    put_number(out, front, name, u64::from(n))
}

pub(crate) fn put_bytes(
    alloc: Global,
    out: &mut Bytes,
    front: &[u8],
    name: &[u8],
    bytes: &Bytes,
) -> Result<(), Memory>
    ensures { OnOk result (out.new ≡ out.old ++ opaque_line (front.now ++ name.now) bytes.now) }
{
    put_opaque(alloc, out, front, name, bytes.as_slice())
}

// Names behind names.
pub(crate) fn joined(alloc: Global, front: &[u8], name: &[u8]) -> Result<Bytes, Memory>
    ensures { IfOk result (λ path. path ≡ front.now ++ name.now) }
{
    let mut path = Bytes::copied(alloc, front)?;
    path.extend_from_slice(name)?;
    Ok(path)
}

// The names before those of the fields of a list's member.
pub(crate) fn front_of_member(alloc: Global, path: &[u8], n: u64) -> Result<Bytes, Memory>
    ensures { IfOk result (λ front. front ≡ member_front path.now n) }
{
    let mut front = Bytes::copied(alloc, path)?;
    front.push(b'.')?;
    front.extend_from_slice(Buffer::new().format(n).as_bytes())?;
    front.push(b'.')?;
    Ok(front)
}
