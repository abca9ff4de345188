ghost use Rattle.std.specs.Prelude.{◌≡◌, ◌<◌, [], ◌∷◌, IfOk};

use super::*;
use enc_base::{
    Failed, HostLibrary, HostSink, Library, List, MemoryLibrary, MemorySink, Name, Pending,
    ReadFault, Sink, StoredFile,
};
use std::alloc::Global;
use std::fs;
use std::fs::File;
use std::test::Fail;

// What a run over two files in memory gives.
#[derive(Drop)]
struct Seen {
    status: u8,
    out: Vec<u8>,
    notes: Vec<u8>,
}

// The calls of a run that fail: reads by their numbers, each behind so many bytes, writes of the
// output by their numbers, and those of output and notes that would bring them above so many bytes.
#[derive(Clone, Copy)]
struct Failing<'a> {
    reads: &'a [u64],
    given: u64,
    writes: &'a [u64],
    most: usize,
    noted: usize,
}

const NONE: Failing<'static> = Failing {
    reads: &[],
    given: 0,
    writes: &[],
    most: 10_000,
    noted: 1000,
};

fn stored(alloc: Global, name: &[u8], text: &[u8]) -> Result<StoredFile, Fail>
    ensures { IfOk result (λ file. file.name ≡ name.now) }
{
    Ok(StoredFile {
        name: Name::from_slice(alloc, name)?,
        bytes: List::from_vec(text.to_vec(alloc)?),
        faults: 5,
    })
}

fn two(alloc: Global, first: StoredFile, second: StoredFile) -> Result<List<StoredFile>, Fail>
    ensures { IfOk result (λ files. files ≡ first ∷ second ∷ []) }
{
    let mut files = List::new(alloc);
    files.push(first)?;
    files.push(second)?;
    Ok(files)
}

fn numbers(alloc: Global, numbers: &[u64]) -> Result<List<u64>, Fail> {
    Ok(List::from_vec(numbers.to_vec(alloc)?))
}

// the problem under `p` and the table under `t`
fn library(
    alloc: Global,
    texts: (&[u8], &[u8]),
    reads: &[u64],
    given: u64,
) -> Result<MemoryLibrary, Fail> {
    let problem = stored(alloc, b"p", texts.0)?;
    let table = stored(alloc, b"t", texts.1)?;
    let files = two(alloc, problem, table)?;
    Ok(MemoryLibrary::with_given(files, numbers(alloc, reads)?, given))
}

fn words(alloc: Global, line: &str) -> Result<Vec<String>, Fail> {
    let mut words = Vec::new(alloc);
    for word in line.split(' ') {
        words.push(String::from_str(alloc, word)?)?;
    }
    Ok(words)
}

fn see(alloc: Global, texts: (&str, &str), line: &str, failing: Failing) -> Result<Seen, Fail> {
    let words = words(alloc, line)?;
    let texts = (texts.0.as_bytes(), texts.1.as_bytes());
    let mut files = library(alloc, texts, failing.reads, failing.given)?;
    let mut out = MemorySink::new(alloc, failing.most, numbers(alloc, failing.writes)?)?;
    let mut notes = MemorySink::new(alloc, failing.noted, List::new(alloc))?;
    let status = run(alloc, words.as_slice(), &mut files, &mut out, &mut notes);
    Ok(Seen {
        status,
        out: out.written().to_vec(alloc)?,
        notes: notes.written().to_vec(alloc)?,
    })
}

const ALL_EQUAL: &str = "tff(go,conjecture,![A: $tType,X: A,Y: A]: X = Y).";

const TWO_ELEMENTS: &str = "typed 1. sizes 1 2. type $i = 0.";

const LOWERED: &str = "untyped 1.
size 5.
function fresh_0 = 1.
predicate is = 0 0 1 0 0 0 0 0 1 1 0 0 1 0 0 0 0 0 1 1 0 0 0 1 1.
";

const LOWERED_BY_TAGS: &str = "untyped 1.
size 5.
function fresh_0 = 1.
function as = 2 2 2 2 2 3 3 3 3 4 2 2 2 2 2 3 3 3 3 4 3 3 3 3 4.
";

const IDEMPOTENCE: &str = "% tfenc tags_cover complete
fof(tag_idempotence,axiom,![X0]: ![X1]: as(X0,as(X0,X1)) = as(X0,X1)).
";

// a problem with a type variable
const POLYMORPHIC: &str = "tff(p,axiom,![A: $tType,X: A,Y: A]: X = Y).";

// a problem with two types, whose first axiom has naked variables
const NAKED: &str = "tff(a,type,a: $tType).
tff(b,type,b: $tType).
tff(c,type,c: b).
tff(d,type,d: b).
tff(one,axiom,![X: a,Y: a]: X = Y).
tff(two,axiom,c != d).
";

// so many axioms, a line each
fn axioms(alloc: Global, first: &str, count: usize) -> Result<String, Fail> {
    let mut text = String::from_str(alloc, first)?;
    for _ in 0..count {
        text.push_str("fof(x,axiom,a).\n")?;
    }
    Ok(text)
}

// Each write of an output fails in turn: a prefix of the output stands there, and nothing is
// written after it. A short output is one write, a long one a write for each 4,096 bytes.
#[test]
fn each_write_fails_in_turn(rt: HostRuntime) -> Result<(), Fail> {
    let alloc = rt.alloc();
    let long = axioms(alloc, "", 400)?;
    let long_wanted = axioms(alloc, "% tfenc erase complete\n", 400)?;
    for (texts, line, wanted, pieces) in [
        (
            ("", ""),
            "encode p --scheme guards",
            "% tfenc guards complete\nfof(inhabitation,axiom,![X0]: ?[X1]: is(X0,X1)).\n",
            1,
        ),
        (
            (POLYMORPHIC, ""),
            "encode p --scheme tags",
            "% tfenc tags complete\nfof(p,axiom,![X0]: ![X1]: ![X2]: as(X0,X1) = as(X0,X2)).\n",
            1,
        ),
        (
            ("", ""),
            "encode p --scheme guards_cover",
            "% tfenc guards_cover complete\nfof(inhabitation,axiom,![X0]: ?[X1]: is(X0,X1)).\n",
            1,
        ),
        (("", ""), "encode p --scheme tags_cover", IDEMPOTENCE, 1),
        (
            (long.as_str(), ""),
            "encode p --scheme erase",
            long_wanted.as_str(),
            2,
        ),
        ((ALL_EQUAL, TWO_ELEMENTS), "check p t", "model\n", 1),
        ((ALL_EQUAL, TWO_ELEMENTS), "lower p t", LOWERED, 1),
        (
            (ALL_EQUAL, TWO_ELEMENTS),
            "lower p t --scheme tags",
            LOWERED_BY_TAGS,
            1,
        ),
        (
            (ALL_EQUAL, TWO_ELEMENTS),
            "lower p t --scheme guards_cover",
            LOWERED,
            1,
        ),
        (
            (ALL_EQUAL, TWO_ELEMENTS),
            "lower p t --scheme tags_cover",
            LOWERED_BY_TAGS,
            1,
        ),
        (
            (ALL_EQUAL, TWO_ELEMENTS),
            "lower p t --scheme erase",
            "untyped 1.\nsize 2.\n",
            1,
        ),
        (
            (ALL_EQUAL, LOWERED),
            "lift p t",
            "typed 1.\nsizes 1 2 1 2 2.\ntype $i = 0.\n",
            1,
        ),
        (
            (ALL_EQUAL, "untyped 1. size 2."),
            "lift p t --scheme tags_feather",
            "typed 1.\nsizes 2.\ntype $i = 0.\n",
            1,
        ),
    ] {
        for number in 1..=pieces + 1 {
            let writes = [number];
            let writes = writes.as_slice();
            let seen = see(alloc, texts, line, Failing { writes, ..NONE })?;
            if number > pieces {
                assert_eq!(rt; seen.status, 0, "at {line}");
                assert_eq!(rt; seen.out.as_slice(), wanted.as_bytes(), "at {line}");
                assert!(rt; seen.notes.is_empty());
            } else {
                assert_eq!(rt; seen.status, 7, "at {line}");
                assert_eq!(rt; seen.out.len() as u64, 4_096 * (number - 1), "at {line}");
                assert!(rt; wanted.as_bytes().starts_with(seen.out.as_slice()));
                assert_eq!(rt; seen.notes.as_slice(), b"tfenc: cannot write\n".as_slice());
            }
        }
    }
    Ok(())
}

// What fits into the room of a sink stands there, and the rest is missed.
#[test]
fn an_output_ends_where_its_room_ends(rt: HostRuntime) -> Result<(), Fail> {
    let wanted = "% tfenc erase complete\nfof(x,axiom,a).\n";
    for most in [0, 10, 30, 38] {
        let failing = Failing { most, ..NONE };
        let texts = ("fof(x,axiom,a).", "");
        let seen = see(rt.alloc(), texts, "encode p --scheme erase", failing)?;
        assert_eq!(rt; seen.status, 7, "at {most}");
        assert_eq!(rt; seen.out.len(), most);
        assert!(rt; wanted.as_bytes().starts_with(seen.out.as_slice()));
        assert_eq!(rt; seen.notes.as_slice(), b"tfenc: cannot write\n".as_slice());
    }
    Ok(())
}

// Each read fails in turn, at once or in mid-stream. The second is made only where it is needed.
#[test]
fn each_read_fails_in_turn(rt: HostRuntime) -> Result<(), Fail> {
    for (line, reads, status, note) in [
        ("lower p t", [1], 6, "tfenc: cannot read p\n"),
        ("lower p t", [2], 6, "tfenc: cannot read t\n"),
        (
            "lower p t --scheme guards_light",
            [2],
            6,
            "tfenc: cannot read t\n",
        ),
        ("check p t", [2], 6, "tfenc: cannot read t\n"),
        ("encode p --scheme guards", [1], 6, "tfenc: cannot read p\n"),
        ("lower t q", [2], 1, "tfenc: 5 language at 0\n"),
        ("encode q", [2], 6, "tfenc: cannot read q\n"),
    ] {
        for given in [0, 5] {
            let reads = reads.as_slice();
            let failing = Failing {
                reads,
                given,
                ..NONE
            };
            let seen = see(rt.alloc(), (ALL_EQUAL, TWO_ELEMENTS), line, failing)?;
            assert_eq!(rt; seen.status, status, "at {line}");
            assert!(rt; seen.out.is_empty());
            assert_eq!(rt; seen.notes.as_slice(), note.as_bytes(), "at {line}");
        }
    }
    Ok(())
}

// Notes that fail, at once, within their first word or behind it, change no status.
#[test]
fn failing_notes_change_no_status(rt: HostRuntime) -> Result<(), Fail> {
    let guarded = "encode p";
    for (text, table, line, writes, status, note) in [
        (
            "fof(x,axiom,a & b | c).",
            "",
            guarded,
            [9],
            1,
            "tfenc: 3 syntax at 18\n",
        ),
        (
            "fof(x,axiom,a &",
            "",
            guarded,
            [9],
            1,
            "tfenc: 3 syntax at 15\n",
        ),
        (
            "fof(x,axiom,p(\"a\")).",
            "",
            guarded,
            [9],
            1,
            "tfenc: 8 distinct object at 14\n",
        ),
        (
            "include('a.ax').",
            "",
            guarded,
            [9],
            1,
            "tfenc: 9 include at 0\n",
        ),
        (
            "cnf(x,axiom,p).",
            "",
            guarded,
            [9],
            1,
            "tfenc: 5 language at 0\n",
        ),
        (
            "fof(x,unknown,p).",
            "",
            guarded,
            [9],
            1,
            "tfenc: 6 role at 6\n",
        ),
        (
            "fof(x,axiom,p#q).",
            "",
            guarded,
            [9],
            1,
            "tfenc: 1 bad byte at 13\n",
        ),
        (
            "fof(x,axiom,'p).",
            "",
            guarded,
            [9],
            1,
            "tfenc: 2 unclosed at 12\n",
        ),
        (
            "fof(x,axiom,p(X)).",
            "",
            guarded,
            [9],
            1,
            "tfenc: 14 free variable X in entry 0\n",
        ),
        (
            "",
            "typed 1. sizes 1.",
            "check p t",
            [9],
            4,
            "tfenc: 43 missing $i\n",
        ),
        (
            "",
            "typed 1. sizes 70000000. type $i = 0.",
            "check p t",
            [9],
            5,
            "tfenc: 33 table too large 70000001\n",
        ),
        (
            NAKED,
            "",
            "encode p --scheme args",
            [9],
            3,
            "tfenc: 32 naked variable in formula 0 equation 0 side 0\n",
        ),
        (
            NAKED,
            "",
            "encode p --scheme erase",
            [9],
            3,
            "tfenc: 32 naked variable in formula 0 equation 0 side 0\n",
        ),
        (
            POLYMORPHIC,
            "",
            "encode p --scheme guards_light",
            [9],
            3,
            "tfenc: 31 not monomorphic p\n",
        ),
        ("", "", "encode q", [9], 6, "tfenc: cannot read q\n"),
        ("", "", guarded, [1], 7, "tfenc: cannot write\n"),
    ] {
        for noted in [0, 3, 9] {
            let writes = writes.as_slice();
            let failing = Failing {
                writes,
                noted,
                ..NONE
            };
            let seen = see(rt.alloc(), (text, table), line, failing)?;
            assert_eq!(rt; seen.status, status, "at {text}");
            assert!(rt; seen.out.is_empty());
            assert_eq!(rt; seen.notes.len(), noted, "at {text}");
            assert!(rt;
                note.as_bytes().starts_with(seen.notes.as_slice()),
                "at {text}"
            );
        }
    }
    Ok(())
}

// Nor do they where the words give no job.
#[test]
fn failing_notes_change_no_status_of_words(rt: HostRuntime) -> Result<(), Fail> {
    for line in [
        "encode",
        "encode p t",
        "check p",
        "paint p",
        "encode p --scheme guard",
        "encode p --mono --rounds 9",
        "encode p --cap 0",
        "generate 0",
        "check - -",
    ] {
        for noted in [0, 3, 9] {
            let seen = see(rt.alloc(), ("", ""), line, Failing { noted, ..NONE })?;
            assert_eq!(rt; seen.status, 9, "at {line}");
            assert!(rt; seen.out.is_empty());
            assert_eq!(rt; seen.notes.len(), noted, "at {line}");
            assert!(rt;
                b"tfenc: not built\n".starts_with(seen.notes.as_slice()),
                "at {line}"
            );
        }
    }
    Ok(())
}

// An output that is written whole needs no notes.
#[test]
fn failing_notes_change_no_output(rt: HostRuntime) -> Result<(), Fail> {
    let wanted = "% tfenc erase complete\nfof(x,axiom,((a | b) & (~a | ~b))).\n";
    let texts = ("fof(x,axiom,a <~> b).", "");
    let failing = Failing { noted: 0, ..NONE };
    let seen = see(rt.alloc(), texts, "encode p --scheme erase", failing)?;
    assert_eq!(rt; seen.status, 0);
    assert_eq!(rt; seen.out.as_slice(), wanted.as_bytes());
    assert!(rt; seen.notes.is_empty());
    Ok(())
}

#[test]
fn a_read_that_fails_gives_the_first_bytes(rt: HostRuntime) -> Result<(), Fail> {
    let alloc = rt.alloc();
    let mut files = library(alloc, (b"one", b"2"), &[2, 3], 2)?;
    let mut into = Vec::new(alloc);
    for (name, wanted, left) in [
        ("p", Ok(()), "one"),
        ("p", Err(ReadFault::Failed), "oneon"),
        ("t", Err(ReadFault::Failed), "oneon2"),
        ("q", Err(ReadFault::Failed), "oneon2"),
        ("t", Ok(()), "oneon22"),
    ] {
        assert_eq!(rt; files.read(name, &mut into), wanted, "at {left}");
        assert_eq!(rt; into.as_slice(), left.as_bytes(), "at {left}");
    }
    Ok(())
}

const PATH: &str = "a_problem_that_a_test_writes.p";

// A file is written by a sink, read by a library and encoded; a folder can't be read, and a file
// that is open to be read can't be written.
#[test]
fn files_of_the_system_are_written_and_read(rt: HostRuntime) -> Result<(), Fail> {
    let alloc = rt.alloc();
    let text = b"fof(x,axiom,a).".as_slice();
    let mut sink = HostSink::new(File::create(&rt, PATH)?);
    assert_eq!(rt; sink.write(text), Ok(()));
    let mut files = HostLibrary::new(&rt);
    let mut into = Vec::new(alloc);
    assert_eq!(rt; files.read(PATH, &mut into), Ok(()));
    assert_eq!(rt; into.as_slice(), text);
    assert_eq!(rt; files.read("/", &mut into), Err(ReadFault::Failed));
    assert_eq!(rt;
        files.read("no/such/file", &mut into),
        Err(ReadFault::Failed)
    );
    let words = words(
        alloc,
        "encode a_problem_that_a_test_writes.p --scheme erase",
    )?;
    let mut out = MemorySink::new(alloc, 100, List::new(alloc))?;
    let mut notes = HostSink::new(File::open(&rt, PATH)?);
    assert_eq!(rt;
        run(alloc, words.as_slice(), &mut files, &mut out, &mut notes),
        0
    );
    let wanted = b"% tfenc erase complete\nfof(x,axiom,a).\n".as_slice();
    assert_eq!(rt; out.written(), wanted);
    assert_eq!(rt; notes.write(text), Err(Failed));
    fs::remove_file(&rt, PATH)?;
    Ok(())
}

// 10,000 bytes, no two neighbours the same.
fn long_text(alloc: Global) -> Result<Vec<u8>, Fail> {
    let mut text = Vec::new(alloc);
    for number in 0..10_000u16 {
        text.push((number % 251) as u8)?;
    }
    Ok(text)
}

// Whether all pieces went out.
fn put_pieces(text: &[u8], size: usize, out: &mut MemorySink) -> bool
    requires { 0 < size }
{
    let mut pending = Pending::new();
    for piece in text.chunks(size) {
        pending.put(piece, out);
    }
    pending.finish(out).is_ok()
}

// Pieces of seven bytes make three writes, and one piece of all bytes makes two: the numbers of
// the writes that fail tell how many there were.
#[test]
fn a_long_text_stops_at_the_write_that_fails(rt: HostRuntime) -> Result<(), Fail> {
    let alloc = rt.alloc();
    let text = long_text(alloc)?;
    for (size, failing, sent) in [
        (7, 1, 0),
        (7, 2, 4_096),
        (7, 3, 8_192),
        (7, 4, 10_000),
        (10_000, 1, 0),
        (10_000, 2, 4_096),
        (10_000, 3, 10_000),
    ] {
        let mut out = MemorySink::new(alloc, 20_000, List::from_vec(vec![in alloc; failing]?))?;
        assert_eq!(rt; put_pieces(&text, size, &mut out), sent == text.len());
        assert_eq!(rt; out.written().len(), sent);
        assert!(rt; text.as_slice().starts_with(out.written()));
    }
    Ok(())
}
