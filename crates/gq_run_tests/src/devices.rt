// What the contracts leave open: that calls succeed, what gates do, and what the host's files return.
use gq_io::{
    AnyGate, FileFault, Files, Gate, HeldGate, HoldGate, HostFiles, MemoryFiles, MemorySink,
    OpenGate, Shape, Sink, SinkFault, SureFiles, SureSink, write_all,
};
use std::alloc::Global;
use std::test::Fail;
use std::{fs, thread};

// Whether a read returns these bytes. Generic, so that each device is called through the trait.
fn reads<F: Files>(alloc: Global, files: &mut F, name: &str, bytes: &[u8]) -> bool {
    match files.read(alloc, name) {
        Ok(found) => found.as_slice() == bytes,
        Err(_) => false,
    }
}

fn fault_of<F: Files>(alloc: Global, files: &mut F, name: &str) -> Option<FileFault> {
    files.read(alloc, name).err()
}

#[test]
fn the_first_file_of_a_name_counts(rt: HostRuntime) -> Result<(), Fail> {
    let alloc = rt.alloc();
    let mut files = SureFiles::new(alloc);
    files.add("a", b"first")?;
    files.add("b", b"")?;
    files.add("a", b"second")?;
    assert!(rt; reads(alloc, &mut files, "a", b"first"));
    assert!(rt; reads(alloc, &mut files, "b", b""));
    assert_eq!(rt; fault_of(alloc, &mut files, "c"), Some(FileFault::Missing));
    Ok(())
}

#[test]
fn the_named_reads_fail_and_no_other(rt: HostRuntime) -> Result<(), Fail> {
    let alloc = rt.alloc();
    let mut files = MemoryFiles::new(alloc);
    files.add("a", b"text")?;
    files.fail_at(1)?;
    files.fail_at(3)?;
    assert_eq!(rt; fault_of(alloc, &mut files, "a"), Some(FileFault::Failed));
    assert!(rt; reads(alloc, &mut files, "a", b"text"));
    assert_eq!(rt; fault_of(alloc, &mut files, "a"), Some(FileFault::Failed));
    assert_eq!(rt; fault_of(alloc, &mut files, "b"), Some(FileFault::Missing));
    Ok(())
}

#[test]
fn a_write_takes_as_much_as_is_allowed(rt: HostRuntime) -> Result<(), Fail> {
    let mut sink = MemorySink::new(rt.alloc(), 3);
    assert_eq!(rt; sink.write(b"abcde"), Ok(3));
    assert_eq!(rt; sink.write(b"de"), Ok(2));
    assert_eq!(rt; sink.write(b""), Ok(0));
    assert_eq!(rt; sink.bytes(), b"abcde".as_slice());
    Ok(())
}

#[test]
fn all_bytes_come_through_short_writes(rt: HostRuntime) -> Result<(), Fail> {
    for most in [1, 4, 100] {
        let mut sink = SureSink::new(rt.alloc(), most);
        assert_eq!(rt; write_all(&mut sink, b"one line\n"), Ok(()));
        assert_eq!(rt; sink.bytes(), b"one line\n".as_slice());
    }
    Ok(())
}

#[test]
fn a_failed_write_leaves_the_pieces_before_it(rt: HostRuntime) -> Result<(), Fail> {
    let mut sink = MemorySink::new(rt.alloc(), 4);
    sink.fail_at(3)?;
    assert_eq!(rt; write_all(&mut sink, b"0123456789"), Err(SinkFault::Failed));
    assert_eq!(rt; sink.bytes(), b"01234567".as_slice());
    assert_eq!(rt; write_all(&mut sink, b"89"), Ok(()));
    assert_eq!(rt; sink.bytes(), b"0123456789".as_slice());
    Ok(())
}

#[test]
fn the_host_tells_a_missing_file_from_one_that_is_there(rt: HostRuntime) -> Result<(), Fail> {
    let alloc = rt.alloc();
    fs::write(&rt, "here", b"some bytes")?;
    let mut files = HostFiles::new(&rt);
    assert_eq!(rt;
        fault_of(alloc, &mut files, "nowhere"),
        Some(FileFault::Missing)
    );
    assert!(rt; reads(alloc, &mut files, "here", b"some bytes"));
    assert_eq!(rt; fault_of(alloc, &mut files, "."), Some(FileFault::Failed));
    fs::remove_file(&rt, "here")?;
    Ok(())
}

#[test]
fn one_worker_meets_nobody(rt: HostRuntime) {
    let gate = HoldGate::new(1000);
    gate.pass(5, 0);
    gate.pass(5, 1);
    assert!(rt; !gate.met());
    OpenGate.pass(63, 0);
}

#[test]
fn two_workers_meet(rt: HostRuntime) {
    let gate = HoldGate::new(200_000_000);
    thread::join(&rt, || gate.pass(0, 0), || gate.pass(63, 1));
    assert!(rt; gate.met());
}

#[test]
fn a_held_worker_sees_the_passes_of_the_others(rt: HostRuntime) {
    let held = HeldGate::new(1, 2, 200_000_000);
    let gate = AnyGate::Held(&held);
    thread::join(
        &rt,
        || gate.pass(1, 0),
        || {
            gate.pass(0, 1);
            gate.pass(2, 2);
        },
    );
    assert!(rt; held.has_seen());
}

#[test]
fn a_held_worker_waits_no_longer_than_its_turns(rt: HostRuntime) {
    let held = HeldGate::new(0, 1, 1000);
    AnyGate::Held(&held).pass(0, 0);
    assert!(rt; !held.has_seen());
}

#[test]
fn a_shape_is_what_it_was_made_of(rt: HostRuntime) {
    let shape = Shape {
        workers: 4,
        chunk: 1024,
        stripes: 16,
    };
    assert_eq!(rt;
        shape,
        Shape {
            workers: 4,
            chunk: 1024,
            stripes: 16
        }
    );
}
