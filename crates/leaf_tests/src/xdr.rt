//! XDR: bytes of a length that isn't a multiple of four, as no structure of the program has them.
use std::alloc::Global;
use xdr_codec::{Reader, Writer, XdrErr};

fn is_padded(alloc: Global) -> bool {
    let mut writer = Writer::new(alloc);
    writer.fixed(b"abcde").is_ok() && writer.into_bytes().as_slice() == b"abcde\0\0\0".as_slice()
}

fn is_read() -> bool {
    let mut reader = Reader::new(b"abcde\0\0\0");
    let mut field = [0u8; 5];
    let mut long = [9u8; 13];
    reader.fixed(&mut long) == Err(XdrErr::Short { at: 0 })
        && long == [9u8; 13]
        && reader.fixed(&mut field) == Ok(())
        && field == *b"abcde"
        && reader.finish() == Ok(())
}

fn is_refused() -> bool {
    let mut reader = Reader::new(b"abcde\0\x01\0");
    let mut field = [0u8; 5];
    reader.fixed(&mut field) == Err(XdrErr::Padding { at: 6 })
}

#[test]
fn bytes_of_a_known_length(rt: HostRuntime) {
    assert!(rt; is_padded(rt.alloc()));
    assert!(rt; is_read());
    assert!(rt; is_refused());
}
