use anyhow::Result;
use st_lines::{
    Failed, Limit, Lines, MemorySink, MemorySource, ReadStop, Reading, Writing, put_all, read_lines,
};
use std::alloc::Global;
use std::io::Cursor;

/// The lines, with a bar behind each.
fn barred(alloc: Global, lines: &Lines) -> Result<Vec<u8>> {
    let mut text = Vec::new(alloc);
    for i in 0..lines.len() {
        text.extend_from_slice(lines.at(i))?;
        text.extend_from_slice(b"|")?;
    }
    Ok(text)
}

#[test]
fn an_input_is_cut_at_each_lf(rt: HostRuntime) -> Result<()> {
    let alloc = rt.alloc();
    for (input, want) in [
        ("", ""),
        ("a", "a|"),
        ("a\n", "a|"),
        ("\n", "|"),
        ("\n\n", "||"),
        ("one\n\ntwo", "one||two|"),
        ("one\r\ntwo\n", "one\r|two|"),
    ] {
        for piece in [1, 3, 65_536] {
            let bytes = Vec::from_slice(alloc, input.as_bytes())?;
            let mut source = MemorySource::new(bytes, piece, Vec::new(alloc));
            let lines = read_lines(alloc, &mut source)?;
            let text = barred(alloc, &lines)?;
            assert_eq!(rt; text.as_slice(), want.as_bytes(), "at {input:?} by {piece}");
        }
    }
    Ok(())
}

#[test]
fn a_fault_is_no_end_of_the_input(rt: HostRuntime) -> Result<()> {
    let alloc = rt.alloc();
    for (call, piece) in [(1, 65_536), (2, 65_536), (2, 1), (5, 1)] {
        let bytes = Vec::from_slice(alloc, b"a\nbc")?;
        let mut source = MemorySource::new(bytes, piece, vec![in alloc; call]?);
        let stop = read_lines(alloc, &mut source).err();
        assert_eq!(rt; stop, Some(ReadStop::Fault), "at call {call} by {piece}");
    }
    Ok(())
}

/// So many lines of so many bytes, each with its LF, and then a line of `last` bytes without one.
fn lines_of(alloc: Global, lines: usize, len: usize, last: usize) -> Result<Vec<u8>> {
    let mut line = vec![in alloc; b'x'; len]?;
    line.push(b'\n')?;
    let mut input = Vec::new(alloc);
    for _ in 0..lines {
        input.extend_from_slice(&line)?;
    }
    input.extend_from_slice(&vec![in alloc; b'x'; last]?)?;
    Ok(input)
}

#[test]
fn the_first_limit_in_byte_order_is_told(rt: HostRuntime) -> Result<()> {
    let alloc = rt.alloc();
    for (lines, len, last, want) in [
        (0, 0, 16_384, None),
        (0, 0, 16_385, Some(Limit::Line(1))),
        (2, 16_384, 16_385, Some(Limit::Line(3))),
        (65_536, 0, 0, None),
        (65_536, 0, 1, Some(Limit::Lines)),
        (65_536, 0, 16_385, Some(Limit::Lines)),
        (65_535, 0, 16_385, Some(Limit::Line(65_536))),
        (65_536, 1_023, 0, None),
        (65_536, 1_023, 1, Some(Limit::Lines)),
        (4_096, 16_383, 0, None),
        (4_096, 16_383, 1, Some(Limit::Bytes)),
        (4_095, 16_383, 16_384, None),
        (4_095, 16_383, 16_385, Some(Limit::Line(4_096))),
        (4_096, 16_384, 0, Some(Limit::Bytes)),
        (4_096, 16_384, 16_385, Some(Limit::Bytes)),
    ] {
        let input = lines_of(alloc, lines, len, last)?;
        let mut source = MemorySource::new(input, 65_536, Vec::new(alloc));
        let stop = read_lines(alloc, &mut source).err();
        assert_eq!(rt;
            stop,
            want.map(ReadStop::Limit),
            "at {lines} of {len}, then {last}"
        );
    }
    Ok(())
}

#[test]
fn all_bytes_are_put_or_a_prefix(rt: HostRuntime) -> Result<()> {
    let alloc = rt.alloc();
    for (piece, fails_at, ok, want) in [
        (65_536, 9, true, "abcdef"),
        (4, 9, true, "abcdef"),
        (1, 7, true, "abcdef"),
        (4, 2, false, "abcd"),
        (1, 6, false, "abcde"),
        (65_536, 1, false, ""),
    ] {
        let mut sink = MemorySink::new(alloc, piece, vec![in alloc; fails_at]?);
        let put = put_all(&mut sink, b"abcdef");
        assert_eq!(rt; put.is_ok(), ok, "by {piece}, failing at {fails_at}");
        assert_eq!(rt;
            sink.bytes(),
            want.as_bytes(),
            "by {piece}, failing at {fails_at}"
        );
    }
    Ok(())
}

#[test]
fn readers_and_writers_serve(rt: HostRuntime) -> Result<()> {
    let alloc = rt.alloc();
    let bytes = Vec::from_slice(alloc, b"one\ntwo")?;
    let mut source = Reading::new(Cursor::new(bytes));
    let lines = read_lines(alloc, &mut source)?;
    let text = barred(alloc, &lines)?;
    assert_eq!(rt; text.as_slice(), b"one|two|".as_slice());
    let mut sink = Writing::new(Cursor::new([0u8; 3]));
    assert_eq!(rt; put_all(&mut sink, b"abc"), Ok(()));
    assert_eq!(rt; put_all(&mut sink, b"d"), Err(Failed));
    Ok(())
}
