//! Tables of inputs and their lines, and each form once.

use racf_files::FileShelf;
use racf_outside::{
    Failed, Failing, Line, LineFault, Lines, MemoryShelf, MemorySink, MemorySource, NeverSink,
    NeverSource, Shelf, Sink, Source,
};
use std::alloc::Global;
use std::fs;
use std::process::Abort;

/// These items in a list.
fn list<T: Copy>(rt: &(impl AllocGlobal + Abort), items: &[T]) -> Vec<T> {
    Vec::from_slice(rt.alloc(), items).expect(rt, "memory")
}

/// Writes the next line behind a text, with a bar behind it: its text, or a question mark where it is too long. At a
/// fault it is a star. Whether there may be more.
fn tell_next<S: Source>(rt: &impl Abort, lines: &mut Lines<S>, told: &mut Vec<u8>) -> bool {
    let put = match lines.next() {
        Ok(Line::Text(text)) => told.extend_from_slice(text),
        Ok(Line::TooLong) => told.extend_from_slice(b"?"),
        Ok(Line::End) => return false,
        Err(_) => {
            assert!(rt; told.push(b'*').is_ok());
            return false;
        }
    };
    assert!(rt; put.is_ok() && told.push(b'|').is_ok());
    true
}

/// Writes all lines behind a text, each with a bar behind it.
fn tell_all<S: Source>(rt: &impl Abort, lines: &mut Lines<S>, told: &mut Vec<u8>) {
    for _ in 0..u64::MAX {
        if !tell_next(rt, lines, told) {
            break;
        }
    }
}

/// The lines of a source.
fn begun<S: Source + Drop>(rt: &(impl AllocGlobal + Abort), source: S) -> Lines<S> {
    match Lines::new(rt.alloc(), source) {
        Ok(lines) => lines,
        Err(_) => panic!(rt; "no memory"),
    }
}

/// The lines of bytes in memory, each with a bar behind it.
fn lines_of(rt: &(impl AllocGlobal + Abort), bytes: &[u8]) -> Vec<u8> {
    let mut told = Vec::new(rt.alloc());
    let mut lines = begun(rt, NeverSource::new(list(rt, bytes)));
    tell_all(rt, &mut lines, &mut told);
    drop(lines.into_source());
    told
}

/// Whether bytes in memory have these lines, each with a bar behind it.
fn has_lines(rt: &(impl AllocGlobal + Abort), bytes: &[u8], wanted: &[u8]) -> bool {
    lines_of(rt, bytes).as_slice() == wanted
}

/// Inputs with their lines.
const LINES: &[(&[u8], &[u8])] = &[
    (b"", b""),
    (b"A", b"A|"),
    (b"A\n", b"A|"),
    (b"A\r\nB", b"A|B|"),
    (b"A\nB\r", b"A|B|"),
    (b"A\n\nB", b"A||B|"),
    (b"\n\n", b"||"),
    (b"\r", b"|"),
    (b"\r\r\n", b"\r|"),
    (b"A\rB\n", b"A\rB|"),
    (b" A \n", b" A |"),
];

#[test]
fn lines_are_those_of_the_input(rt: HostRuntime) {
    for (input, wanted) in LINES {
        assert!(rt; has_lines(&rt, input, wanted));
    }
}

/// As many letters as this, and then `end`.
fn letters(rt: &(impl AllocGlobal + Abort), count: usize, end: &[u8]) -> Vec<u8> {
    let mut bytes = vec![in rt.alloc(); b'A'; count].expect(rt, "memory");
    bytes.extend_from_slice(end).expect(rt, "memory");
    bytes
}

/// Whether an input of as many letters as this, and then `end`, has these lines.
fn letters_have_lines(
    rt: &(impl AllocGlobal + Abort),
    count: usize,
    end: &[u8],
    wanted: &[u8],
) -> bool {
    has_lines(rt, &letters(rt, count, end), wanted)
}

/// 4,096 bytes are a line, a carriage return counted, and one more is too many; a line that crosses a block is whole.
#[test]
fn long_lines_are_told(rt: HostRuntime) {
    assert!(rt; letters_have_lines(&rt, 4_096, b"\nB", &letters(&rt, 4_096, b"|B|")));
    assert!(rt; letters_have_lines(&rt, 4_097, b"\nB", b"?|B|"));
    assert!(rt; letters_have_lines(&rt, 4_096, b"\r\nB", b"?|B|"));
    assert!(rt; letters_have_lines(&rt, 200_000, b"", b"?|"));
}

/// Whether the lines that are asked for hold a line as told, and are then read.
fn holds<S: Source>(lines: &mut Lines<S>, held: bool) -> bool {
    lines.holds_line() == held && lines.next().is_ok()
}

/// Whether the second of three lines alone is held before it is asked for, and none is behind them.
fn holds_the_second<S: Source>(lines: &mut Lines<S>) -> bool {
    holds(lines, false) && holds(lines, true) && holds(lines, false) && holds(lines, false)
}

#[test]
fn lines_are_held(rt: HostRuntime) {
    let mut lines = begun(&rt, NeverSource::new(list(&rt, b"A\nB\nC")));
    assert!(rt; holds_the_second(&mut lines));
    drop(lines.into_source());
}

/// Whether the next line, or the fault in its place, is this.
fn is_next<S: Source>(lines: &mut Lines<S>, wanted: Result<Line, LineFault>) -> bool {
    lines.next() == wanted
}

/// Whether a line is given, then the fault of a read, and then the end as often as it is asked for.
fn fails_at_the_second<S: Source>(lines: &mut Lines<S>) -> bool {
    is_next(lines, Ok(Line::Text(b"A")))
        && is_next(lines, Err(LineFault::ReadFault))
        && is_next(lines, Ok(Line::End))
        && is_next(lines, Ok(Line::End))
}

/// Whether the lines of a source whose second read fails are given so, and it has one fault.
fn counts_a_fault(rt: &(impl AllocGlobal + Abort)) -> bool {
    let source = MemorySource::new(list(rt, b"A\nB"), list(rt, &[2]));
    let mut lines = begun(rt, source);
    let told = fails_at_the_second(&mut lines);
    lines.into_source().faults() == 1 && told
}

/// The second read fails: the line that has begun isn't given, and the third read goes on behind it.
#[test]
fn faults_are_counted(rt: HostRuntime) {
    assert!(rt; counts_a_fault(&rt));
    assert!(rt; NeverSink.write(b"four") == Ok(4));
}

/// Copies an input of a shelf to an output of it, in one read and one write, and answers whether all calls succeeded.
fn copies<F: Shelf>(shelf: &mut F, from: &str, to: &str) -> bool {
    let Ok(mut source) = shelf.source(from) else {
        return false;
    };
    let Ok(mut sink) = shelf.sink(to) else {
        shelf.take_back(from, source);
        return false;
    };
    let mut piece = [0u8; 8];
    let copied = match source.read(&mut piece) {
        Ok(count) => sink.write(&piece[..count]).is_ok(),
        Err(_) => false,
    };
    shelf.take_back(from, source);
    shelf.give_back(to, sink);
    copied
}

/// A shelf in memory whose second source, third sink and second writes are to fail, with an input and one that can't be
/// read.
fn failing_shelf(rt: &(impl AllocGlobal + Abort)) -> MemoryShelf {
    let failing = Failing {
        sources: list(rt, &[2]),
        sinks: list(rt, &[3]),
        writes: list(rt, &[2]),
    };
    let mut shelf = MemoryShelf::new(rt.alloc(), failing);
    let first = shelf.put("in", list(rt, b"text"), Vec::new(rt.alloc()));
    let second = shelf.put("bad", list(rt, b"text"), list(rt, &[1]));
    assert!(rt; first.is_ok() && second.is_ok());
    shelf
}

/// Whether the output of a shelf is this text.
fn tells(shelf: &MemoryShelf, text: &str) -> bool {
    shelf.output("out") == Some(text.as_bytes())
}

/// Inputs that are copied to the output, whether they could be, and the output that is then told.
const OPENINGS: &[(&str, bool, &str)] = &[
    ("in", true, "text"),
    ("in", false, "text"),
    ("bad", false, ""),
    ("in", false, ""),
    ("none", false, ""),
    ("in", true, "text"),
];

/// Whether an input could be copied to the output of a shelf or not, as told here, and which output is then told.
fn opens_as_told(shelf: &mut MemoryShelf, input: &str, copied: bool, told: &str) -> bool {
    copies(shelf, input, "out") == copied && tells(shelf, told)
}

/// Opens the input of each row, one behind the other.
fn open_all(rt: &impl Abort, shelf: &mut MemoryShelf) {
    for (input, copied, told) in OPENINGS {
        assert!(rt; opens_as_told(shelf, input, *copied, told));
    }
}

#[test]
fn openings_fail_as_told(rt: HostRuntime) {
    open_all(&rt, &mut failing_shelf(&rt));
}

/// Whether of two writes the second fails, and the sink has what the first wrote.
fn fails_second(sink: &mut MemorySink) -> bool {
    sink.write(b"one ") == Ok(4)
        && sink.write(b"two ") == Err(Failed)
        && sink.bytes() == b"one ".as_slice()
        && sink.faults() == 1
}

/// Whether the second write of an output fails, which has no bytes until it is given back, and then those of the first.
fn gives_the_first(shelf: &mut MemoryShelf) -> bool {
    let Ok(mut sink) = shelf.sink("out") else {
        return false;
    };
    let told = fails_second(&mut sink) && shelf.output("out").is_none();
    shelf.give_back("out", sink);
    told && tells(shelf, "one ")
}

#[test]
fn writes_fail_as_told(rt: HostRuntime) {
    assert!(rt; gives_the_first(&mut failing_shelf(&rt)));
}

/// Inputs and outputs, and whether the one could be copied to the other.
const COPIES: &[(&str, &str, bool)] = &[
    ("-", "-", true),
    ("shelf.in", "shelf.out", true),
    ("shelf.out", "./shelf.out", false),
    ("shelf.in", "shelf.link", false),
    ("shelf.none", "shelf.out", false),
    ("shelf.in", ".", false),
];

/// Whether the file has this text.
fn has_text(rt: &HostRuntime, name: &str, text: &str) -> bool {
    match fs::read_to_string(rt, name) {
        Ok(found) => found.as_str() == text,
        Err(_) => false,
    }
}

/// Whether the file could be written with this text.
fn is_written(rt: &HostRuntime, name: &str, text: &str) -> bool {
    fs::write(rt, name, text).is_ok()
}

/// Whether a shelf copies its files, and refuses to, as told.
fn copies_as_told<F: Shelf>(files: &mut F) -> bool {
    for (input, output, copied) in COPIES {
        if copies(files, input, output) != *copied {
            return false;
        }
    }
    true
}

/// Whether no input is lost by the copies. Once it is closed, an input is a file like any other.
fn keeps_its_inputs<F: Shelf>(rt: &HostRuntime, files: &mut F) -> bool {
    copies_as_told(files)
        && has_text(rt, "shelf.in", "text")
        && has_text(rt, "shelf.out", "text")
        && is_written(rt, "shelf.in", "longer text")
        && copies(files, "shelf.out", "shelf.link")
        && has_text(rt, "shelf.in", "text")
}

/// Whether a shelf of files loses no input.
fn keeps_files(rt: &HostRuntime) -> bool {
    match rt.clone() {
        Ok(runtime) => keeps_its_inputs(rt, &mut FileShelf::new(rt.alloc(), runtime)),
        Err(_) => false,
    }
}

#[test]
fn files_are_not_lost(rt: HostRuntime) {
    assert!(rt; is_written(&rt, "shelf.in", "text"));
    assert!(rt; fs::hard_link(&rt, "shelf.in", "shelf.link").is_ok());
    assert!(rt; keeps_files(&rt));
    for name in ["shelf.in", "shelf.link", "shelf.out"] {
        assert!(rt; fs::remove_file(&rt, name).is_ok());
    }
}
