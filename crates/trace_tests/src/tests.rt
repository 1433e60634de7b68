use calls::Call;
use refusal::code::Refusal;
use refusal::file::FileRefusal;
use std::alloc::{AllocError, Global};
use std::test::Fail;
use trace::encode::{encode, encode_frames};
use trace::listed::{ReadError, Trace, file_text, read_all};
use trace::reader::{Reader, check_file};

// What the reader hands out of a file of one record.
fn content(record: [u8; 12]) -> Result<Call, FileRefusal> {
    let [a, b, c, d, e, f, g, h, i, j, k, l] = record;
    let file = [0, 1, a, b, c, d, e, f, g, h, i, j, k, l];
    check_file(&file)?;
    match Reader::new(&file).next_entry() {
        Some(entry) => entry.content,
        None => Err(FileRefusal::Cut),
    }
}

// A record of an operation with one bit set; bit 0 is the highest of the 96.
fn one_bit(operation: u8, bit: usize) -> [u8; 12] {
    let mut record = [0u8; 12];
    record[0] = operation % 16 * 16;
    if bit < 96 {
        let place = bit / 8;
        record[place] |= 128 >> (bit % 8);
    }
    record
}

// What turns a file away, or its frame count.
fn checked(heap: Global, frames: u16, len: usize) -> Result<Result<u16, FileRefusal>, Fail> {
    let mut file = vec![in heap; 0; len]?;
    let [high, low] = frames.to_be_bytes();
    if file.len() > 1 {
        file[0] = high;
        file[1] = low;
    }
    Ok(check_file(&file))
}

// Each operation, in both directions.
#[test]
fn each_operation(rt: HostRuntime) {
    let cases = [
        (
            Call::Map {
                space: 0,
                page: 16,
                count: 2,
                object: 0,
                offset: 0,
                protection: 3,
            },
            [0x10, 0x00, 0x04, 0x00, 0x40, 0x01, 0x80, 0, 0, 0, 0, 0],
        ),
        (
            Call::Map {
                space: 15,
                page: 262_143,
                count: 511,
                object: 15,
                offset: 255,
                protection: 3,
            },
            [0x1f, 0xff, 0xff, 0xff, 0xff, 0xff, 0x80, 0, 0, 0, 0, 0],
        ),
        (
            Call::Unmap {
                space: 1,
                page: 74_565,
            },
            [0x21, 0x48, 0xd1, 0x40, 0, 0, 0, 0, 0, 0, 0, 0],
        ),
        (
            Call::Protect {
                space: 2,
                page: 131_072,
                protection: 1,
            },
            [0x32, 0x80, 0, 0, 0, 0, 0x80, 0, 0, 0, 0, 0],
        ),
        (
            Call::Read { space: 3, page: 1 },
            [0x43, 0, 0, 0x40, 0, 0, 0, 0, 0, 0, 0, 0],
        ),
        (
            Call::Write {
                space: 0,
                page: 16,
                word: 0x0102_0304,
            },
            [0x50, 0, 0x04, 0, 0, 0, 0, 0, 0x01, 0x02, 0x03, 0x04],
        ),
        (
            Call::Wire {
                space: 8,
                page: 65_536,
            },
            [0x68, 0x40, 0, 0, 0, 0, 0, 0, 0, 0, 0, 0],
        ),
        (
            Call::Unwire {
                space: 4,
                page: 1_024,
            },
            [0x74, 0x01, 0, 0, 0, 0, 0, 0, 0, 0, 0, 0],
        ),
        (
            Call::Sync { object: 7 },
            [0x80, 0, 0, 0, 0x0e, 0, 0, 0, 0, 0, 0, 0],
        ),
    ];
    for (call, bytes) in cases {
        assert_eq!(rt; encode(call), Some(bytes));
        assert_eq!(rt; content(bytes), Ok(call));
    }
}

// Operations 0 and 9 to 15 are turned away, also where another field is wrong.
#[test]
fn operation_outside(rt: HostRuntime) {
    for operation in [0, 9, 10, 11, 12, 13, 14, 15] {
        assert_eq!(rt;
            content(one_bit(operation, 96)),
            Err(FileRefusal::Operation)
        );
        assert_eq!(rt;
            content(one_bit(operation, 49)),
            Err(FileRefusal::Operation)
        );
    }
}

// Every bit of every field that an operation does not use, by the first and the last of them.
#[test]
fn unused_fields(rt: HostRuntime) {
    let unused = [
        (1, 49, 96),
        (2, 26, 96),
        (3, 26, 47),
        (3, 49, 96),
        (4, 26, 96),
        (5, 26, 64),
        (6, 26, 96),
        (7, 26, 96),
        (8, 4, 35),
        (8, 39, 96),
    ];
    for (operation, first, end) in unused {
        for bit in first..end {
            assert_eq!(rt; content(one_bit(operation, bit)), Err(FileRefusal::Field));
        }
    }
}

// Every bit of every field that an operation uses.
#[test]
fn used_fields(rt: HostRuntime) -> Result<(), Fail> {
    let used = [
        (1, 4, 49),
        (2, 4, 26),
        (3, 4, 26),
        (3, 47, 49),
        (4, 4, 26),
        (5, 4, 26),
        (5, 64, 96),
        (6, 4, 26),
        (7, 4, 26),
        (8, 35, 39),
    ];
    for (operation, first, end) in used {
        for bit in first..end {
            let record = one_bit(operation, bit);
            assert_eq!(rt; encode(content(record)?), Some(record));
        }
    }
    Ok(())
}

// Frame counts and lengths at their edges; where two refusals fit, the smaller number counts.
#[test]
fn whole_files(rt: HostRuntime) -> Result<(), Fail> {
    let cases = [
        (0, 2, Err(FileRefusal::Size)),
        (1, 2, Ok(1)),
        (256, 2, Ok(256)),
        (257, 2, Err(FileRefusal::Size)),
        (65_535, 2, Err(FileRefusal::Size)),
        (1, 0, Err(FileRefusal::Cut)),
        (1, 1, Err(FileRefusal::Cut)),
        (1, 3, Err(FileRefusal::Cut)),
        (1, 13, Err(FileRefusal::Cut)),
        (1, 14, Ok(1)),
        (1, 15, Err(FileRefusal::Cut)),
        (0, 13, Err(FileRefusal::Size)),
        (257, 13, Err(FileRefusal::Size)),
        (1, 65_533, Err(FileRefusal::Cut)),
        (256, 65_534, Ok(256)),
        (256, 65_535, Err(FileRefusal::Size)),
        (1, 65_546, Err(FileRefusal::Size)),
    ];
    for (frames, len, answer) in cases {
        assert_eq!(rt; checked(rt.alloc(), frames, len)?, answer);
    }
    Ok(())
}

// What does not fit its bits is not encoded.
#[test]
fn misfits(rt: HostRuntime) {
    let cases = [
        Call::Map {
            space: 16,
            page: 0,
            count: 0,
            object: 0,
            offset: 0,
            protection: 0,
        },
        Call::Map {
            space: 0,
            page: 262_144,
            count: 0,
            object: 0,
            offset: 0,
            protection: 0,
        },
        Call::Map {
            space: 0,
            page: 0,
            count: 512,
            object: 0,
            offset: 0,
            protection: 0,
        },
        Call::Map {
            space: 0,
            page: 0,
            count: 0,
            object: 16,
            offset: 0,
            protection: 0,
        },
        Call::Map {
            space: 0,
            page: 0,
            count: 0,
            object: 0,
            offset: 0,
            protection: 4,
        },
        Call::Sync { object: 255 },
    ];
    for call in cases {
        assert_eq!(rt; encode(call), None);
    }
    assert_eq!(rt; encode_frames(0), Err(FileRefusal::Size));
    assert_eq!(rt; encode_frames(1), Ok([0, 1]));
    assert_eq!(rt; encode_frames(256), Ok([1, 0]));
    assert_eq!(rt; encode_frames(257), Err(FileRefusal::Size));
}

// The entries come in the file's order with their numbers, those turned away too, and then no more.
#[test]
fn in_order(rt: HostRuntime) -> Result<(), Fail> {
    let file = [
        0, 2, 0x80, 0, 0, 0, 0x02, 0, 0, 0, 0, 0, 0, 0, 0x90, 0, 0, 0, 0, 0, 0, 0, 0, 0, 0, 0,
        0x40, 0, 0, 0x40, 0, 0, 0, 1, 0, 0, 0, 0, 0x40, 0, 0, 0x40, 0, 0, 0, 0, 0, 0, 0, 0,
    ];
    let Ok(trace) = read_all(rt.alloc(), &file) else {
        return Err(Fail::new("the file is turned away"));
    };
    assert_eq!(rt; trace.frames, 2);
    let lines = [
        "0 sync object 1",
        "1 refused 3 F",
        "2 refused 4 F",
        "3 read space 0 page 1",
    ];
    assert_eq!(rt; trace.entries.len(), lines.len());
    for (entry, line) in trace.entries.iter().zip(lines.iter()) {
        assert_eq!(rt; format!(in rt.alloc(); "{entry}")?.as_str(), *line);
    }
    Ok(())
}

// A file that is turned away gives its refusal and no entries.
#[test]
fn turned_away(rt: HostRuntime) -> Result<(), Fail> {
    match read_all(rt.alloc(), &[1, 1, 7]) {
        Err(ReadError::File(refusal)) => {
            assert_eq!(rt; refusal.code().number, 1);
            Ok(())
        },
        Err(ReadError::Memory(_)) => Err(Fail::new("no memory")),
        Ok(_) => Err(Fail::new("the file is read")),
    }
}

// The frame count of a trace, in words.
fn frames_text(heap: Global, trace: &Trace) -> Result<String, AllocError> {
    format!(in heap; "{} frames\n", trace.frames)
}

// The text of a file is what is made of its trace; of one that is turned away, the number of its refusal.
#[test]
fn file_texts(rt: HostRuntime) -> Result<(), Fail> {
    let heap = rt.alloc();
    let files: [(&[u8], &str); 3] = [
        (&[0, 7], "7 frames\n"),
        (&[1, 1, 7], "file 1\n"),
        (&[0, 7, 7], "file 2\n"),
    ];
    for (file, text) in files {
        let made = file_text(heap, file, |trace| frames_text(heap, trace))?;
        assert_eq!(rt; made.as_str(), text);
    }
    Ok(())
}
