//! The outside in memory and of the host: what is read, put and written, and which call fails.
ghost use Rattle.std.specs.Prelude.{None};

use le_io::{
    Failed, FileStore, Got, MemSink, MemStore, OutSink, ReadStop, SET_LIMIT, Store, read_all,
    write_all,
};
use std::alloc::{AllocError, Global};
use std::fs;
use std::rt::Files;
use std::test::Fail;

fn one_file(alloc: Global, path: &str, bytes: &[u8]) -> Result<Vec<(String, Vec<u8>)>, AllocError> {
    let file = (
        String::from_str(alloc, path)?,
        Vec::from_slice(alloc, bytes)?,
    );
    let mut files = Vec::new(alloc);
    files.push(file)?;
    Ok(files)
}

#[test]
fn memory_store_reads_puts_and_fails_by_number(rt: HostRuntime) -> Result<(), Fail> {
    let alloc = rt.alloc();
    let mut files = one_file(alloc, "a", b"first")?;
    files.push((
        String::from_str(alloc, "a")?,
        Vec::from_slice(alloc, b"second")?,
    ))?;
    let mut store = MemStore::new(alloc, files, [3, 6].to_vec(alloc)?);
    let mut buffer = [0u8; 3];
    assert_eq!(rt; store.read_at("a", 1, &mut buffer), Got::Bytes(3));
    assert_eq!(rt; buffer.as_slice(), b"irs".as_slice());
    assert_eq!(rt; store.read_at("a", 5, &mut buffer), Got::Bytes(0));
    assert_eq!(rt; store.read_at("a", 0, &mut buffer), Got::Failed, "call 3");
    assert_eq!(rt; store.read_at("b", 0, &mut buffer), Got::Absent);
    assert_eq!(rt; store.put("b", b"new"), Ok(()));
    assert_eq!(rt; store.put("a", b"lost"), Err(Failed), "call 6");
    assert_eq!(rt; store.put("a", b"put"), Ok(()));
    assert_eq!(rt; store.bytes("a"), Some(b"put".as_slice()));
    assert_eq!(rt; store.bytes("b"), Some(b"new".as_slice()));
    assert!(rt; store.bytes("c").is_none());
    Ok(())
}

#[test]
fn whole_set_or_the_stop_of_its_call(rt: HostRuntime) -> Result<(), Fail> {
    let alloc = rt.alloc();
    for (call, want) in [
        (0, Ok(())),
        (1, Err(ReadStop::Failed)),
        (2, Err(ReadStop::Failed)),
        (3, Ok(())),
    ] {
        let files = one_file(alloc, "a", b"some bytes")?;
        let mut store = MemStore::new(alloc, files, [call].to_vec(alloc)?);
        let got = read_all(alloc, &mut store, "a");
        match got {
            Ok(bytes) => {
                assert!(rt; want.is_ok(), "call {call}");
                assert_eq!(rt; bytes.as_slice(), b"some bytes".as_slice());
            }
            Err(why) => assert_eq!(rt; Err(why), want, "call {call}"),
        }
    }
    let mut empty = MemStore::new(alloc, Vec::new(alloc), Vec::new(alloc));
    match read_all(alloc, &mut empty, "a") {
        Ok(_) => assert!(rt; false, "nothing stands there"),
        Err(why) => assert_eq!(rt; why, ReadStop::Absent),
    }
    Ok(())
}

/// A set of so many bytes, of which it tells nothing.
#[derive(Drop)]
struct LongSet {
    len: u64,
    longs: u64,
}

impl Store for LongSet {
    ghost told = { λ _. None };

    ghost counts = { λ s. record { faults = λ _. 0; put_faults = λ _. 0; misses = λ _. 0; longs = λ _. s.longs } };

    fn read_at(&mut self, _path: &str, at: u64, into: &mut [u8]) -> Got {
        let n = into.len().min(self.len.saturating_sub(at) as usize);
        if at >= SET_LIMIT && n > 0 {
            self.longs = self.longs.saturating_add(1);
        }
        Got::Bytes(n)
    }

    fn put(&mut self, _path: &str, _b: &[u8]) -> Result<(), Failed> {
        Ok(())
    }
}

#[test]
fn set_past_the_limit_is_too_long(rt: HostRuntime) {
    for (len, want) in [(SET_LIMIT, None), (SET_LIMIT + 1, Some(ReadStop::TooLong))] {
        let mut set = LongSet { len, longs: 0 };
        let got = read_all(rt.alloc(), &mut set, "a").err();
        assert_eq!(rt; got, want, "of {len} bytes");
    }
}

#[test]
fn memory_sink_takes_most_and_fails_by_number(rt: HostRuntime) -> Result<(), Fail> {
    let alloc = rt.alloc();
    for (call, most, held) in [
        (0, 1, b"a text".as_slice()),
        (0, 100, b"a text".as_slice()),
        (2, 4, b"a te".as_slice()),
        (1, 4, b"".as_slice()),
        (0, 0, b"".as_slice()),
    ] {
        let mut sink = MemSink::new(alloc, [call].to_vec(alloc)?, most);
        let whole = write_all(&mut sink, b"a text").is_ok();
        assert_eq!(rt; whole, call == 0 && most > 0, "call {call} of {most} bytes");
        assert_eq!(rt; sink.bytes(), held, "call {call} of {most} bytes");
    }
    Ok(())
}

#[test]
fn file_is_put_whole_and_read_back(rt: HostRuntime) -> Result<(), Fail> {
    let alloc = rt.alloc();
    let mut store = FileStore::new(alloc, &rt);
    let mut buffer = [0u8; 8];
    assert_eq!(rt; store.read_at("le_io_set", 0, &mut buffer), Got::Absent);
    for bytes in [b"a first library".as_slice(), b"a second".as_slice()] {
        assert_eq!(rt; store.put("le_io_set", bytes), Ok(()));
        match read_all(alloc, &mut store, "le_io_set") {
            Ok(read) => assert_eq!(rt; read.as_slice(), bytes),
            Err(why) => assert!(rt; false, "{why:?}"),
        }
    }
    assert!(rt;
        fs::metadata(&rt, "le_io_set.new0").is_err(),
        "nothing is left beside it"
    );
    rt.symlink("le_io_set", "le_io_link")?;
    assert_eq!(rt; store.put("le_io_link", b"through"), Ok(()));
    assert!(rt;
        fs::symlink_metadata(&rt, "le_io_link")?.is_symlink(),
        "the link stays"
    );
    assert_eq!(rt; store.read_at("le_io_set", 2, &mut buffer), Got::Bytes(5));
    assert_eq!(rt; &buffer[..5], b"rough".as_slice());
    assert_eq!(rt; store.put("le_io_no_folder/set", b"b"), Err(Failed));
    assert_eq!(rt; store.read_at(".", 0, &mut buffer), Got::Failed, "a folder");
    fs::remove_file(&rt, "le_io_link")?;
    fs::remove_file(&rt, "le_io_set")?;
    Ok(())
}

#[test]
fn standard_output_takes_a_text(rt: HostRuntime) {
    let mut out = OutSink::new(&rt);
    assert!(rt; write_all(&mut out, b"printed\n").is_ok());
}
