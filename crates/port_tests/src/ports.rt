//! Each object once, through its trait.
use run_ports::{
    Courier, Delivery, DiskFiles, FileFault, Files, HoldUntil, Meet, MemFiles, MemSink, NamedBytes,
    NoMeet, ReplayCourier, StdSink, write_whole,
};
use sql_values::{Memory, Text};
use std::alloc::Global;
use std::io::Write;
use std::{fs, io};

fn named(alloc: Global, name: &str, bytes: &[u8]) -> Result<NamedBytes, FileFault> {
    let name = Text::copy_of(alloc, name)?;
    let bytes = Vec::from_slice(alloc, bytes)?;
    Ok(NamedBytes { name, bytes })
}

fn files(alloc: Global) -> Result<Vec<NamedBytes>, FileFault> {
    let mut files = Vec::new(alloc);
    files.push(named(alloc, "t", b"a\n1\n")?)?;
    files.push(named(alloc, "u", b"b\n")?)?;
    Ok(files)
}

/// Files of which the second read is to fail.
fn failing_files(alloc: Global) -> Result<MemFiles, FileFault> {
    let files = files(alloc)?;
    let failing = Vec::from_slice(alloc, &[2])?;
    Ok(MemFiles::new(files, failing))
}

/// Whether a read gives the bytes, or fails where none are wanted.
fn gives(files: &mut MemFiles, alloc: Global, name: &str, want: Option<&str>) -> bool {
    match (files.read(alloc, name), want) {
        (Ok(bytes), Some(want)) => bytes.as_slice() == want.as_bytes(),
        (Err(fault), None) => matches!(fault, FileFault::Failed),
        _ => false,
    }
}

/// Whether a read of a name gives what stands after the name, or fails where nothing stands there.
fn is_read(files: &mut MemFiles, alloc: Global, case: &str) -> bool {
    match case.split_once(' ') {
        Some((name, want)) => gives(files, alloc, name, Some(want)),
        None => gives(files, alloc, case, None),
    }
}

#[test]
fn files_in_memory_fail_as_told(rt: HostRuntime) -> Result<(), FileFault> {
    let mut files = failing_files(rt.alloc())?;
    for case in "t a\n1\n;t;z;u b\n".split(';') {
        assert!(rt; is_read(&mut files, rt.alloc(), case));
    }
    Ok(())
}

const TEXT: &[u8] = b"a\n3\n1\n\\N\n";

/// Whether the sink takes the first bytes of the text, so many, and reports a fault where they are not
/// all.
fn takes(sink: &mut MemSink, count: usize) -> bool {
    let whole = write_whole(sink, TEXT).is_ok();
    sink.written() == &TEXT[..count.min(TEXT.len())]
        && whole == (count == TEXT.len())
        && (sink.faults() == 0) == whole
}

/// The same of a sink of this room, which takes so many bytes at most, and fails at one write.
fn is_taken(
    alloc: Global,
    room: usize,
    most: usize,
    failing: u32,
    count: usize,
) -> Result<bool, Memory> {
    let failing = Vec::from_slice(alloc, &[failing])?;
    let mut sink = MemSink::new(alloc, room, most.max(1), failing)?;
    Ok(takes(&mut sink, count))
}

#[test]
fn a_sink_in_memory_fails_as_told(rt: HostRuntime) -> Result<(), Memory> {
    // room, most, the failing write, how many bytes are written
    for (room, most, failing, count) in [
        (64, 4, 3, 8),
        (64, 4, 9, 9),
        (64, 100, 2, 9),
        (9, 100, 9, 9),
        (5, 3, 9, 5),
    ] {
        assert!(rt; is_taken(rt.alloc(), room, most, failing, count)?);
    }
    Ok(())
}

#[test]
fn files_of_the_system_are_read(rt: HostRuntime) -> Result<(), FileFault> {
    let alloc = rt.alloc();
    let name = "/tmp/port_tests_files_of_the_system";
    assert!(rt; fs::write(&rt, name, "a\n1\n").is_ok());
    let mut files = DiskFiles::new(&rt);
    let bytes = files.read(alloc, name)?;
    assert!(rt; fs::remove_file(&rt, name).is_ok());
    assert!(rt; bytes.as_slice() == b"a\n1\n".as_slice());
    assert!(rt; matches!(files.read(alloc, name), Err(FileFault::Failed)));
    Ok(())
}

/// A writer that takes one byte at a time, and no byte after some.
#[derive(Drop)]
struct Narrow {
    left: usize,
}

impl Write for Narrow {
    fn write(&mut self, bytes: &[u8]) -> io::Result<usize> {
        if self.left == 0 || bytes.is_empty() {
            return Ok(0);
        }
        self.left -= 1;
        Ok(1)
    }

    fn flush(&mut self) -> io::Result<()> {
        Ok(())
    }
}

/// Whether a writer that takes so many bytes takes a text of four.
fn takes_four(left: usize) -> bool {
    let mut sink = StdSink::of(Narrow { left });
    write_whole(&mut sink, b"a\n1\n").is_ok()
}

#[test]
fn a_writer_that_takes_nothing_is_a_fault(rt: HostRuntime) {
    assert!(rt; takes_four(9) && takes_four(4));
    assert!(rt; !takes_four(3) && !takes_four(0));
    let mut sink = StdSink::of(Vec::<u8>::new(rt.alloc()));
    assert!(rt; write_whole(&mut sink, b"a\n1\n").is_ok());
}

fn first_turn<C: Courier + Send, M: Meet + Sync>(courier: &C, meet: &M) -> Delivery {
    meet.arrive(0);
    courier.for_edge(0, 1).turn()
}

#[test]
fn a_courier_delivers(rt: HostRuntime) {
    assert!(rt; matches!(first_turn(&ReplayCourier::new(), &NoMeet), Delivery::Fresh));
}

/// The number of a run and of an edge, and what the courier of that edge delivers, turn by turn.
const DELIVERIES: &str = "\
0 0 Fresh Fresh Fresh Fresh Fresh Fresh Fresh Fresh Fresh Fresh Fresh Fresh Fresh Fresh Fresh Fresh Fresh Fresh Fresh Fresh Fresh Fresh Fresh Fresh
0 7 Fresh Fresh Fresh Fresh Fresh Fresh Fresh Fresh Fresh Fresh Fresh Fresh Fresh Fresh Fresh Fresh Fresh Fresh Fresh Fresh Fresh Fresh Fresh Fresh
1 0 Again:3 Fresh Fresh Again:1 Again:2 Nothing Again:1 Again:1 Fresh Again:3 Nothing Again:1 Fresh Fresh Again:1 Fresh Again:2 Nothing Fresh Fresh Nothing Fresh Again:3 Again:2
1 1 Fresh Again:3 Fresh Fresh Nothing Nothing Fresh Again:0 Fresh Again:1 Nothing Again:2 Again:3 Again:0 Fresh Again:1 Again:1 Fresh Again:0 Nothing Fresh Again:3 Fresh Again:2
7 0 Again:0 Nothing Fresh Fresh Fresh Nothing Fresh Fresh Nothing Again:0 Nothing Nothing Fresh Fresh Fresh Again:3 Fresh Nothing Fresh Nothing Fresh Fresh Again:0 Again:2
7 3 Fresh Again:0 Nothing Again:3 Fresh Nothing Nothing Nothing Fresh Fresh Nothing Nothing Again:3 Fresh Nothing Fresh Nothing Fresh Fresh Fresh Nothing Again:1 Again:2 Again:2
18446744073709551615 1 Nothing Fresh Fresh Fresh Fresh Nothing Fresh Nothing Fresh Nothing Nothing Again:1 Again:2 Fresh Fresh Again:2 Fresh Again:0 Nothing Nothing Again:2 Fresh Nothing Again:2
18446744073709551615 4294967295 Fresh Nothing Fresh Fresh Fresh Nothing Again:2 Fresh Again:0 Fresh Fresh Again:2 Fresh Fresh Again:0 Again:0 Again:3 Again:2 Nothing Fresh Nothing Fresh Fresh Nothing
123456789 42 Nothing Again:1 Fresh Again:3 Nothing Nothing Fresh Again:0 Fresh Again:3 Fresh Fresh Fresh Fresh Nothing Again:3 Again:0 Fresh Fresh Nothing Again:0 Fresh Fresh Fresh";

fn is_again(word: &str, back: u32) -> bool {
    let Some(number) = word.strip_prefix("Again:") else {
        return false;
    };
    match number.parse::<u32>() {
        Ok(number) => number == back,
        Err(_) => false,
    }
}

/// Whether a turn delivers what a word says.
fn is_delivered(delivery: Delivery, word: &str) -> bool {
    match delivery {
        Delivery::Fresh => word == "Fresh",
        Delivery::Again(back) => is_again(word, back),
        Delivery::Nothing => word == "Nothing",
    }
}

/// Whether a courier delivers what the words say, one a turn.
fn are_delivered<C: Courier>(courier: &mut C, words: &str) -> bool {
    for word in words.split(' ') {
        if !is_delivered(courier.turn(), word) {
            return false;
        }
    }
    true
}

/// Whether the courier of a line's edge delivers what the line says.
fn is_replayed(line: &str) -> bool {
    let Some((number, rest)) = line.split_once(' ') else {
        return false;
    };
    let Some((edge, words)) = rest.split_once(' ') else {
        return false;
    };
    match (number.parse(), edge.parse()) {
        (Ok(number), Ok(edge)) => {
            are_delivered(&mut ReplayCourier::new().for_edge(number, edge), words)
        }
        _ => false,
    }
}

#[test]
fn a_replay_courier_follows_its_generator(rt: HostRuntime) {
    for line in DELIVERIES.lines() {
        assert!(rt; is_replayed(line));
    }
}

/// Drivers in the order in which they arrive where driver 1 is held until driver 2 comes, how many arrive, and whether
/// driver 1 looks for it in vain.
const ARRIVALS: &str = "\
2 1 | 2 false
1 | 1 true
0 2 3 1 | 4 false
0 3 | 2 false
1 2 1 | 3 true";

/// Whether the drivers of a line are held as it says.
fn are_held(line: &str) -> bool {
    let (drivers, rest) = line.split_once(" | ").unwrap_or((line, ""));
    let (arrivals, late) = rest.split_once(' ').unwrap_or((rest, ""));
    let meet = HoldUntil::new(1, 2, 3);
    for driver in drivers.split(' ') {
        meet.arrive(driver.parse().unwrap_or(0));
    }
    Ok(meet.arrivals()) == arrivals.parse() && (late == "true") == meet.was_late()
}

#[test]
fn a_driver_is_held_until_another_comes(rt: HostRuntime) {
    for line in ARRIVALS.lines() {
        assert!(rt; are_held(line));
    }
}
