// What no clause says: that memory is found, and that a stream that fails ends the run there.
ghost use Rattle.std.specs.Prelude.{◌≡◌, ◌≤◌, ◌%◌, length, IfOk};

use crate::*;
use arc_base::{Bytes, Faults, Items, MemSink, MemSource, Memory, Stream, SureSink, SureSource};
use rv32_isa::Image;
use std::alloc::Global;
use std::test::Fail;

// Reads at most 4 bytes into the data, writes those that came, and exits with 7.
const ECHO: [u8; 44] = [
    0xb7, 0x05, 0x10, 0x00, 0x13, 0x06, 0x40, 0x00, 0x93, 0x08, 0xf0, 0x03, 0x73, 0x00, 0x00, 0x00,
    0x13, 0x06, 0x05, 0x00, 0x13, 0x05, 0x10, 0x00, 0x93, 0x08, 0x00, 0x04, 0x73, 0x00, 0x00, 0x00,
    0x13, 0x05, 0x70, 0x00, 0x93, 0x08, 0xd0, 0x05, 0x73, 0x00, 0x00, 0x00,
];

fn bytes_of(alloc: Global, content: &[u8]) -> Result<Bytes, Memory>
    ensures { IfOk result (λ bytes. length bytes ≡ length content.now) }
{
    let mut bytes = Bytes::new(alloc);
    bytes.append(content)?;
    Ok(bytes)
}

fn loaded(alloc: Global, code: &[u8]) -> Result<Runner, Memory>
    requires whole { length code.now % 4 ≡ 0 }
    requires least { 4 ≤ length code.now }
    requires most { length code.now ≤ 524288 }
{
    let image = Image {
        code: bytes_of(alloc, code)?,
        statics: bytes_of(alloc, &[0; 4])?,
        heap: 0,
        stack: 65536,
        hooks: Items::new(alloc),
    };
    load(alloc, &image)
}

fn failing(alloc: Global, calls: &[u64]) -> Result<Faults, Fail> {
    Ok(Faults {
        calls: Vec::from_slice(alloc, calls)?,
    })
}

#[test]
fn runs_in_parts(rt: HostRuntime) -> Result<(), Fail> {
    let mut runner = loaded(rt.alloc(), &ECHO)?;
    let mut input = SureSource::new(bytes_of(rt.alloc(), b"abc")?);
    let mut out = SureSink::new(rt.alloc(), 16)?;
    let mut err = SureSink::new(rt.alloc(), 16)?;
    for (n, end, written) in [
        (7, RunEnd::Spent, &b""[..]),
        (1, RunEnd::Spent, b"abc"),
        (0, RunEnd::Spent, b"abc"),
        (2, RunEnd::Spent, b"abc"),
        (9, RunEnd::Exited(7), b"abc"),
        (9, RunEnd::Exited(7), b"abc"),
    ] {
        assert_eq!(rt; runner.run(n, &mut input, &mut out, &mut err), end);
        assert_eq!(rt; out.written(), written);
    }
    assert_eq!(rt; err.written(), b"".as_slice());
    Ok(())
}

#[test]
fn streams_fail(rt: HostRuntime) -> Result<(), Fail> {
    for (take, put, end) in [
        (1, 9, RunEnd::ReadFault),
        (9, 1, RunEnd::WriteFault(Stream::Out)),
        (2, 9, RunEnd::ReadFault),
    ] {
        let mut runner = loaded(rt.alloc(), &ECHO)?;
        let mut input = MemSource::new(
            bytes_of(rt.alloc(), b"abc")?,
            failing(rt.alloc(), &[take])?,
        );
        let mut out = MemSink::new(rt.alloc(), 16, failing(rt.alloc(), &[put])?)?;
        let mut err = SureSink::new(rt.alloc(), 16)?;
        for _ in 0..2 {
            assert_eq!(rt; runner.run(100, &mut input, &mut out, &mut err), end);
        }
    }
    Ok(())
}
