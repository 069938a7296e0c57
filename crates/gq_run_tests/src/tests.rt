// What the contract of `run` leaves open: that runs succeed if there is memory, and that lines and statuses are those
// that a reader of the documentation expects.
use crate::files::{
    EARLY_LINE, FAULT_LINES, FILES, FRIENDS_LINES, GROUPS_LINE, INSERT_LINE, LOADS_LINE,
    SAMPLE_LINES, SEVEN, SEVEN_LINE, SUMS_LINE,
};
use gq_diagnostics::Status;
use gq_driver::run;
use gq_engine::Engine;
use gq_io::{AnyGate, HeldGate, HoldGate, MemoryFiles, MemorySink, SureFiles, SureSink};
use std::alloc::Global;
use std::test::Fail;
use std::thread::Threads;

// Returns the words of a line, which are separated by blanks.
fn words_of(alloc: Global, line: &str) -> Result<Vec<String>, Fail> {
    let mut words = Vec::new(alloc);
    for word in line.split(' ') {
        words.push(String::from_str(alloc, word)?)?;
    }
    Ok(words)
}

// Concatenates these parts.
fn joined(alloc: Global, parts: &[&[u8]]) -> Result<Vec<u8>, Fail> {
    let mut bytes = Vec::new(alloc);
    for part in parts {
        bytes.extend_from_slice(part)?;
    }
    Ok(bytes)
}

// Which read and which write fail, or 0 for none, the most bytes that a write takes, and the gate that workers pass.
#[derive(Clone, Copy)]
struct Devices<'g> {
    failed_read: u64,
    failed_write: u64,
    most: usize,
    gate: AnyGate<'g>,
}

const SURE: Devices<'static> = Devices {
    failed_read: 0,
    failed_write: 0,
    most: 1000,
    gate: AnyGate::Open,
};

// Returns devices with a failing read.
fn failing_read(call: u64) -> Devices<'static> {
    Devices {
        failed_read: call,
        ..SURE
    }
}

// Returns devices with a failing write, each of whose writes takes at most this many bytes.
fn failing_write(call: u64, most: usize) -> Devices<'static> {
    Devices {
        failed_write: call,
        most,
        ..SURE
    }
}

// Returns devices that don't fail, with a gate.
fn with_gate(gate: AnyGate<'_>) -> Devices<'_> {
    Devices {
        failed_read: 0,
        failed_write: 0,
        most: 1000,
        gate,
    }
}

// Returns all files; the read with this number fails.
fn files(alloc: Global, failed: u64) -> Result<MemoryFiles, Fail> {
    let mut files = MemoryFiles::new(alloc);
    files.fail_at(failed)?;
    for (name, parts) in FILES {
        files.add(name, &joined(alloc, parts)?)?;
    }
    Ok(files)
}

// Whether a run of this line over these devices has this status and prints these lines.
fn ends<R: Threads + AllocGlobal + Sync>(
    rt: &R,
    line: &str,
    devices: Devices<'_>,
    answer: Status,
    lines: &[u8],
) -> Result<bool, Fail> {
    let alloc = rt.alloc();
    let words = words_of(alloc, line)?;
    let mut files = files(alloc, devices.failed_read)?;
    let mut out = MemorySink::new(alloc, devices.most.max(1));
    out.fail_at(devices.failed_write)?;
    let engine = Engine { gate: devices.gate };
    let status = run(rt, &engine, alloc, &words, &mut files, &mut out);
    Ok(status == answer && out.bytes() == lines)
}

#[test]
fn a_line_is_printed_where_no_device_can_fail(rt: HostRuntime) -> Result<(), Fail> {
    let alloc = rt.alloc();
    let words = words_of(alloc, "seven")?;
    let mut files = SureFiles::new(alloc);
    files.add("seven", SEVEN)?;
    let mut out = SureSink::new(alloc, 100);
    let engine = Engine {
        gate: AnyGate::Open,
    };
    let status = run(&rt, &engine, alloc, &words, &mut files, &mut out);
    assert_eq!(rt; status, Status::Done);
    assert_eq!(rt; out.bytes(), SEVEN_LINE);
    Ok(())
}

#[test]
fn the_lines_before_a_fault_stand(rt: HostRuntime) -> Result<(), Fail> {
    for (line, devices, answer, lines) in [
        ("seven", failing_read(1), Status::ReadFault, b"".as_slice()),
        ("loads", failing_read(3), Status::ReadFault, b"".as_slice()),
        (
            "--args a.json argument",
            failing_read(2),
            Status::ReadFault,
            b"".as_slice(),
        ),
        (
            "seven_loads",
            failing_read(2),
            Status::ReadFault,
            SEVEN_LINE,
        ),
        (
            "twice",
            failing_write(2, 1000),
            Status::WriteFault,
            SEVEN_LINE,
        ),
        (
            "seven",
            failing_write(3, 10),
            Status::WriteFault,
            b"{\"error\":false,\"mess".as_slice(),
        ),
    ] {
        assert!(rt; ends(&rt, line, devices, answer, lines)?, "{line}");
    }
    Ok(())
}

#[test]
fn the_bytes_before_a_failed_write_stand(rt: HostRuntime) -> Result<(), Fail> {
    let sample = "--sample 3";
    let devices = failing_write(0, 1);
    assert!(rt; ends(&rt, sample, devices, Status::Done, SAMPLE_LINES)?);
    for written in 0..SAMPLE_LINES.len() {
        let devices = failing_write(1 + written as u64, 1);
        let lines = &SAMPLE_LINES[..written];
        assert!(rt;
            ends(&rt, sample, devices, Status::WriteFault, lines)?,
            "{written}"
        );
    }
    Ok(())
}

#[test]
fn scripts_print_their_lines(rt: HostRuntime) -> Result<(), Fail> {
    let alloc = rt.alloc();
    for (line, lines) in [
        ("loads", [LOADS_LINE, b"".as_slice()]),
        ("groups", [LOADS_LINE, GROUPS_LINE]),
        ("sums", [LOADS_LINE, SUMS_LINE]),
        ("insert", [LOADS_LINE, INSERT_LINE]),
        ("friends", [FRIENDS_LINES, b"".as_slice()]),
        ("--args a.json argument", [SEVEN_LINE, SEVEN_LINE]),
        (
            "--workers 3 --chunk=1 seven --turns 5",
            [SEVEN_LINE, b"".as_slice()],
        ),
    ] {
        let lines = joined(alloc, &lines)?;
        assert!(rt; ends(&rt, line, SURE, Status::Done, &lines)?, "{line}");
    }
    assert!(rt; ends(&rt, "early", SURE, Status::Refused, EARLY_LINE)?);
    Ok(())
}

#[test]
fn two_workers_run_a_block_and_one_runs_it_alone(rt: HostRuntime) -> Result<(), Fail> {
    for (line, turns, met) in [
        ("--chunk 1 --workers 2 friends", 200_000_000, true),
        ("--chunk 1 --workers 1 friends", 1000, false),
    ] {
        let gate = HoldGate::new(turns);
        let devices = with_gate(AnyGate::Hold(&gate));
        assert!(rt;
            ends(&rt, line, devices, Status::Done, FRIENDS_LINES)?,
            "{line}"
        );
        assert_eq!(rt; gate.met(), met, "{line}");
    }
    Ok(())
}

// How often a late worker checks for the passes that it waits for.
const LOOKS: u64 = 1_000_000;

// A block of three candidates, and others of two and of seven. At most two workers run the block of two; the rest come
// to the last one.
#[test]
fn a_late_worker_changes_no_byte(rt: HostRuntime) -> Result<(), Fail> {
    for (script, early, later, answer, lines) in [
        ("fault", 2, 2, Status::Refused, FAULT_LINES),
        ("friends", 1, 8, Status::Done, FRIENDS_LINES),
    ] {
        for (workers, worker) in [
            (2, 0),
            (2, 1),
            (3, 0),
            (3, 1),
            (3, 2),
            (4, 0),
            (4, 1),
            (4, 2),
            (4, 3),
        ] {
            let passes = if worker < 2 { early } else { later };
            let gate = HeldGate::new(worker, passes, LOOKS);
            let devices = with_gate(AnyGate::Held(&gate));
            let line = format!(in rt.alloc(); "--chunk 1 --workers {workers} {script}")?;
            assert!(rt;
                ends(&rt, &line, devices, answer, lines)?,
                "{line}, late is {worker}"
            );
        }
    }
    Ok(())
}
