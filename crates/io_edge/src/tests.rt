ghost use Rattle.std.specs.Prelude.{◌≤◌, IfOk};

use crate::system::read_counted;
use crate::{ErrSink, Failed, FileSource, MemorySink, MemorySource, OutSink, Sink, Source};
use std::alloc::Global;
use std::io::{Read, Write};
use std::process::Abort;
use std::test::Fail;
use std::{env, fs, io, process};

// What stands in a buffer before a read.
const MARK: u8 = b'#';

// What one read gives, into a buffer with this room. What it does not count has to stay as it was.
fn read_once<S: Source>(
    rt: &impl Abort,
    alloc: Global,
    source: &mut S,
    room: usize,
) -> Result<Result<Vec<u8>, Failed>, Fail> {
    let mut buffer = [MARK; 8];
    let answer = source.read(&mut buffer[..room.min(8)]);
    let count = answer.unwrap_or(0).min(8);
    assert!(rt; buffer[count..].iter().all(|&byte| byte == MARK));
    match answer {
        Ok(_) => Ok(Ok(buffer[..count].to_vec(alloc)?)),
        Err(failed) => Ok(Err(failed)),
    }
}

fn expect_read<S: Source>(
    rt: &impl Abort,
    alloc: Global,
    source: &mut S,
    room: usize,
    wanted: &[u8],
) -> Result<(), Fail> {
    match read_once(rt, alloc, source, room)? {
        Ok(bytes) => assert_eq!(rt; bytes.as_slice(), wanted),
        Err(_) => assert!(rt; false, "the read failed"),
    }
    Ok(())
}

fn two_files(alloc: Global) -> Result<MemorySource, Fail> {
    let mut source = MemorySource::new(alloc);
    source.add("a", b"first")?;
    source.add("b", b"other")?;
    source.add("a", b"second")?;
    Ok(source)
}

#[test]
fn the_first_file_with_a_name_is_read_in_short_reads(rt: HostRuntime) -> Result<(), Fail> {
    let alloc = rt.alloc();
    let mut source = two_files(alloc)?;
    source.most(3);
    assert_eq!(rt; source.open("a"), Ok(()));
    expect_read(&rt, alloc, &mut source, 2, b"fi")?;
    expect_read(&rt, alloc, &mut source, 8, b"rst")?;
    expect_read(&rt, alloc, &mut source, 8, b"")?;
    assert_eq!(rt; source.open("b"), Ok(()));
    expect_read(&rt, alloc, &mut source, 8, b"oth")?;
    Ok(())
}

// Calls of both kinds are numbered together: 0 and 1 read with no file open, 2 and 3 open, 4 and 5 read.
#[test]
fn the_calls_that_are_to_fail_fail_but_for_a_closed_read(rt: HostRuntime) -> Result<(), Fail> {
    let alloc = rt.alloc();
    let mut source = two_files(alloc)?;
    for call in [0, 2, 4] {
        source.fail_at(call)?;
    }
    expect_read(&rt, alloc, &mut source, 8, b"")?;
    expect_read(&rt, alloc, &mut source, 8, b"")?;
    assert_eq!(rt; source.open("a"), Err(Failed));
    assert_eq!(rt; source.open("a"), Ok(()));
    assert!(rt; read_once(&rt, alloc, &mut source, 8)?.is_err());
    expect_read(&rt, alloc, &mut source, 8, b"first")?;
    Ok(())
}

#[test]
fn a_name_that_is_not_held_closes_the_file(rt: HostRuntime) -> Result<(), Fail> {
    let alloc = rt.alloc();
    let mut source = two_files(alloc)?;
    assert_eq!(rt; source.open("a"), Ok(()));
    assert_eq!(rt; source.open("c"), Err(Failed));
    expect_read(&rt, alloc, &mut source, 8, b"")?;
    Ok(())
}

#[test]
fn a_sink_without_room_left_fails(rt: HostRuntime) -> Result<(), Fail> {
    let mut sink = MemorySink::new(rt.alloc(), 1)?;
    assert_eq!(rt; sink.write(b"ab"), Ok(1));
    assert_eq!(rt; sink.write(b"ab"), Err(Failed));
    assert_eq!(rt; sink.write(b""), Ok(0));
    assert_eq!(rt; sink.bytes(), b"a".as_slice());
    Ok(())
}

#[test]
fn a_sink_takes_a_few_bytes_at_a_time_and_none_at_a_failure(rt: HostRuntime) -> Result<(), Fail> {
    let mut sink = MemorySink::new(rt.alloc(), 5)?;
    sink.most(2);
    sink.fail_at(1)?;
    assert_eq!(rt; sink.write(b"abcde"), Ok(2));
    assert_eq!(rt; sink.write(b"cde"), Err(Failed));
    assert_eq!(rt; sink.write(b"cde"), Ok(2));
    assert_eq!(rt; sink.write(b"e"), Ok(1));
    assert_eq!(rt; sink.bytes(), b"abcde".as_slice());
    Ok(())
}

// The path of a file in the folder for what is needed for a while, with a space at each end of its name.
fn spaced_path(rt: &HostRuntime) -> Result<String, Fail> {
    let alloc = rt.alloc();
    let folder = env::temp_dir(rt)?;
    let name = format!(in alloc; " io_edge {} ", process::id(rt.process()))?;
    let path = folder.join(alloc, name.as_str())?;
    Ok(String::from_str(alloc, path.as_str())?)
}

#[test]
fn a_file_of_the_system_is_read(rt: HostRuntime) -> Result<(), Fail> {
    let alloc = rt.alloc();
    let path = spaced_path(&rt)?;
    fs::write(&rt, path.as_str(), "abc")?;
    let mut source = FileSource::new(&rt);
    expect_read(&rt, alloc, &mut source, 8, b"")?;
    assert_eq!(rt; source.open(path.as_str()), Ok(()));
    expect_read(&rt, alloc, &mut source, 2, b"ab")?;
    expect_read(&rt, alloc, &mut source, 8, b"c")?;
    expect_read(&rt, alloc, &mut source, 8, b"")?;
    fs::remove_file(&rt, path.as_str())?;
    assert_eq!(rt; source.open(path.as_str()), Err(Failed));
    expect_read(&rt, alloc, &mut source, 8, b"")?;
    Ok(())
}

#[test]
fn a_folder_can_be_opened_and_not_read(rt: HostRuntime) -> Result<(), Fail> {
    let folder = env::temp_dir(&rt)?;
    let mut source = FileSource::new(&rt);
    assert_eq!(rt; source.open(folder.as_str()), Ok(()));
    assert!(rt; read_once(&rt, rt.alloc(), &mut source, 8)?.is_err());
    Ok(())
}

// No system lets the file of a program that runs be opened for writing.
#[test]
fn a_file_that_must_not_be_written_is_read(rt: HostRuntime) -> Result<(), Fail> {
    let mut source = FileSource::new(&rt);
    assert_eq!(rt; source.open("/proc/self/exe"), Ok(()));
    expect_read(&rt, rt.alloc(), &mut source, 4, b"\x7fELF")?;
    Ok(())
}

#[test]
fn the_streams_of_the_system_take_bytes(rt: HostRuntime) -> Result<(), Fail> {
    let mut out = OutSink::new(rt.stdout());
    assert_eq!(rt; out.write(b""), Ok(0));
    assert_eq!(rt; out.write(b"\n"), Ok(1));
    let mut err = ErrSink::new(rt.stderr());
    assert_eq!(rt; err.write(b""), Ok(0));
    assert_eq!(rt; err.write(b"\n"), Ok(1));
    Ok(())
}

// A stream whose first call takes two bytes, whose second takes none, whose third fails, and which then works.
#[derive(Drop)]
struct Flaky {
    calls: u8,
}

impl Flaky {
    fn next(&mut self, most: usize) -> io::Result<usize>
        ensures { IfOk result (λ n. n ≤ most) }
    {
        let call = self.calls;
        self.calls = call.saturating_add(1);
        match call {
            1 => Ok(0),
            2 => Err(io::Error::from(io::ErrorKind::Other)),
            _ => Ok(most.min(2)),
        }
    }
}

impl Write for Flaky {
    fn write(&mut self, buf: &[u8]) -> io::Result<usize> {
        self.next(buf.len())
    }

    fn flush(&mut self) -> io::Result<()> {
        Ok(())
    }
}

// It writes into the whole buffer whatever it answers.
impl Read for Flaky {
    fn read(&mut self, buf: &mut [u8]) -> io::Result<usize> {
        buf.fill(b'x');
        self.next(buf.len())
    }
}

fn expect_flaky<S: Sink>(rt: &impl Abort, sink: &mut S) {
    assert_eq!(rt; sink.write(b"abc"), Ok(2));
    assert_eq!(rt; sink.write(b"c"), Err(Failed));
    assert_eq!(rt; sink.write(b"c"), Err(Failed));
    assert_eq!(rt; sink.write(b"c"), Ok(1));
}

#[test]
fn a_stream_that_takes_nothing_or_fails_is_a_failure_and_is_called_once(rt: HostRuntime) {
    expect_flaky(&rt, &mut OutSink::new(Flaky { calls: 0 }));
    expect_flaky(&rt, &mut ErrSink::new(Flaky { calls: 0 }));
}

#[test]
fn a_read_that_fails_is_a_failure_and_leaves_the_buffer(rt: HostRuntime) {
    let mut file = Flaky { calls: 0 };
    let mut faults = 0;
    for (answer, left) in [
        (Ok(2), b"xx#"),
        (Ok(0), b"###"),
        (Err(Failed), b"###"),
        (Ok(2), b"xx#"),
    ] {
        let mut buffer = [MARK; 3];
        assert_eq!(rt; read_counted(&mut file, &mut faults, &mut buffer), answer);
        assert_eq!(rt; &buffer, left);
    }
    assert_eq!(rt; faults, 1);
}
