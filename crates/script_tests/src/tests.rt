use script::bytes::trace_bytes;
use script::parse::{ParseError, parse};
use script::text::script_text;
use std::alloc::Global;
use std::test::Fail;
use trace::listed::read_all;

// What is read of a text, written as text again, or what is wrong with it.
fn said(heap: Global, text: &str) -> Result<String, Fail> {
    match parse(heap, text.as_bytes()) {
        Ok(script) => Ok(script_text(heap, script.frames, &script.calls)?),
        Err(ParseError::Text(fault)) => Ok(format!(in heap; "{fault}")?),
        Err(ParseError::Memory(_)) => Err(Fail::new("no memory")),
    }
}

// The bytes of the trace that a text says.
fn assembled(heap: Global, text: &str) -> Result<Vec<u8>, Fail> {
    let Ok(script) = parse(heap, text.as_bytes()) else {
        return Err(Fail::new("the text is not read"));
    };
    match trace_bytes(heap, script.frames, &script.calls) {
        Ok(bytes) => Ok(bytes),
        Err(_) => Err(Fail::new("no trace is made")),
    }
}

// Every operation with its smallest and largest fields is read and written as it stands.
#[test]
fn each_operation(rt: HostRuntime) -> Result<(), Fail> {
    let text = "frames 256
map space 0 page 16 count 2 object 0 offset 0 protection 3
map space 15 page 262143 count 511 object 15 offset 255 protection 3
unmap space 1 page 74565
protect space 2 page 131072 protection 1
read space 3 page 1
write space 0 page 16 word 4294967295
wire space 8 page 65536
unwire space 4 page 1024
sync object 15
";
    assert_eq!(rt; said(rt.alloc(), text)?.as_str(), text);
    Ok(())
}

// What may stand around the words: blanks, empty lines, comments, numbers; the last newline may be missing.
#[test]
fn freedoms(rt: HostRuntime) -> Result<(), Fail> {
    let cases = [
        ("frames 1", "frames 1\n"),
        ("frames 1\n", "frames 1\n"),
        (
            "\n\n# of one frame\n  # and indented\n\t \nframes 1\n",
            "frames 1\n",
        ),
        (
            "  frames \t 7 \r\n\r\nread\tspace 0  page 017\r\n",
            "frames 7\nread space 0 page 17\n",
        ),
        (
            "frames 1\n0 sync object 1\nsync object 2\n\n02 sync object 3",
            "frames 1\nsync object 1\nsync object 2\nsync object 3\n",
        ),
    ];
    for (text, answer) in cases {
        assert_eq!(rt; said(rt.alloc(), text)?.as_str(), answer);
    }
    Ok(())
}

// What is wrong with a first line.
#[test]
fn bad_frames(rt: HostRuntime) -> Result<(), Fail> {
    let cases = [
        ("", "line 1: the field frames is missing"),
        ("# nothing\n\n", "line 1: the field frames is missing"),
        (
            "\nread space 0 page 1",
            "line 2: here the field frames is due",
        ),
        ("frames", "line 1: the value of frames is no number"),
        ("frames one", "line 1: the value of frames is no number"),
        ("frames -1", "line 1: the value of frames is no number"),
        ("frames 0", "line 1: the value of frames is 0"),
        ("frames 257", "line 1: the value of frames is above 256"),
        ("frames 1 2", "line 1: there is a word too many"),
    ];
    for (text, answer) in cases {
        assert_eq!(rt; said(rt.alloc(), text)?.as_str(), answer);
    }
    Ok(())
}

// What is wrong with a record.
#[test]
fn bad_records(rt: HostRuntime) -> Result<(), Fail> {
    let cases = [
        ("frames 1\nRead space 0 page 1", "line 2: no such operation"),
        ("frames 1\nframes 1", "line 2: no such operation"),
        ("frames 1\n\n0", "line 3: no such operation"),
        (
            "frames 1\n1 read space 0 page 1",
            "line 2: this is not the record's number",
        ),
        (
            "frames 1\n0x read space 0 page 1",
            "line 2: this is not the record's number",
        ),
        ("frames 1\nread", "line 2: the field space is missing"),
        (
            "frames 1\nread space 0",
            "line 2: the field page is missing",
        ),
        (
            "frames 1\nread page 1 space 0",
            "line 2: here the field space is due",
        ),
        (
            "frames 1\nread space 0 pages 1",
            "line 2: here the field page is due",
        ),
        (
            "frames 1\nread space 0 page",
            "line 2: the value of page is no number",
        ),
        (
            "frames 1\nread space 0 page 1f",
            "line 2: the value of page is no number",
        ),
        (
            "frames 1\nread space 16 page 1",
            "line 2: the value of space is above 15",
        ),
        (
            "frames 1\nread space 0 page 262144",
            "line 2: the value of page is above 262143",
        ),
        (
            "frames 1\nmap space 0 page 0 count 512 object 0 offset 0 protection 0",
            "line 2: the value of count is above 511",
        ),
        (
            "frames 1\nmap space 0 page 0 count 0 object 0 offset 256 protection 0",
            "line 2: the value of offset is above 255",
        ),
        (
            "frames 1\nprotect space 0 page 0 protection 4",
            "line 2: the value of protection is above 3",
        ),
        (
            "frames 1\nwrite space 0 page 0 word 4294967296",
            "line 2: the value of word is above 4294967295",
        ),
        (
            "frames 1\nsync object 99999999999999999999",
            "line 2: the value of object is above 15",
        ),
        (
            "frames 1\nsync object 1\n# two\nsync object 1 now",
            "line 4: there is a word too many",
        ),
    ];
    for (text, answer) in cases {
        assert_eq!(rt; said(rt.alloc(), text)?.as_str(), answer);
    }
    Ok(())
}

// A trace has 5,461 records, and no more.
#[test]
fn most_records(rt: HostRuntime) -> Result<(), Fail> {
    let mut text = String::from_str(rt.alloc(), "frames 1\n")?;
    for _ in 0..5_461 {
        text.push_str("sync object 0\n")?;
    }
    assert_eq!(rt; assembled(rt.alloc(), text.as_str())?.len(), 65_534);
    text.push_str("sync object 0\n")?;
    assert_eq!(rt;
        said(rt.alloc(), text.as_str())?.as_str(),
        "line 5463: a trace has at most 5461 records"
    );
    Ok(())
}

// The bytes of a text, and the lines that a listing has of them.
#[test]
fn bytes_and_lines(rt: HostRuntime) -> Result<(), Fail> {
    let lines = [
        "0 map space 0 page 16 count 2 object 0 offset 0 protection 3",
        "1 write space 0 page 16 word 16909060",
        "2 sync object 7",
    ];
    let mut text = String::from_str(rt.alloc(), "frames 256\n")?;
    for line in lines {
        text.push_str(line)?;
        text.push_str("\n")?;
    }
    let bytes = assembled(rt.alloc(), text.as_str())?;
    let expected =
        b"\x01\x00\x10\x00\x04\x00\x40\x01\x80\x00\x00\x00\x00\x00\x50\x00\x04\x00\x00\x00\x00\x00\x01\x02\x03\x04\x80\x00\x00\x00\x0e\x00\x00\x00\x00\x00\x00\x00";
    assert_eq!(rt; bytes.as_slice() == expected.as_slice(), true);
    let Ok(trace) = read_all(rt.alloc(), &bytes) else {
        return Err(Fail::new("the trace is turned away"));
    };
    assert_eq!(rt; trace.entries.len(), lines.len());
    for (entry, line) in trace.entries.iter().zip(lines.iter()) {
        assert_eq!(rt; format!(in rt.alloc(); "{entry}")?.as_str(), *line);
    }
    Ok(())
}
