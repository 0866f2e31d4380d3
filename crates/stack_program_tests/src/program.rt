//! The program over devices in memory: each form once, the words as the runtime gives them, and devices that fail. All
//! other rows are run on the real disk by the examples.

use stack_cli::{Given, run, run_given};
use stack_outside::{MemoryShelf, MemorySink};
use std::alloc::Global;
use std::test::*;

/// A post on level ground.
const POST: &str = r#"[[material]]
name = "stone"
weight = 1
friction = [1, 1]

[[block]]
name = "ground"
material = "stone"
fixed = true
corners = [[-10, -1], [10, -1], [10, 0], [-10, 0]]

[[block]]
name = "post"
material = "stone"
corners = [[0, 0], [2, 0], [2, 4], [0, 4]]
"#;

/// A live load that pushes it at its head.
const PUSH: &str = "\n[[load]]\nblock = \"post\"\nkind = \"live\"\nat = [0, 4]\nforce = [1, 0]\n";

/// One that presses it from above, in its middle.
const PRESSURE: &str =
    "\n[[load]]\nblock = \"post\"\nkind = \"live\"\nat = [1, 4]\nforce = [0, -1]\n";

/// Forces that carry it.
const FORCES: &str = "stands\nforces 1 0\npush 24 0\npush 24 0\nend\n";

/// Its contacts, as they are listed.
const TABLE: &str =
    "bearings 2\nbearing 1 ground post 0 0 1 0 1 1\nbearing 2 ground post 2 0 1 0 1 1\ntouches 0\n";

/// The same with the forces of FORCES.
const TABLES: &str = "bearings 2
bearing 1 ground post 0 0 1 0 1 1
bearing 2 ground post 2 0 1 0 1 1
touches 0
stands
factor 0/1
force 1 0/1 4/1
force 2 0/1 4/1
";

/// The summary of the first wall.
const SAMPLE: &str = "sample 0
blocks 4
bearings 14
touches 0
verdict greatest
factor 120/1
narrow yes
";

/// Files by their names, each in pieces.
type Files = &'static [(&'static str, &'static [&'static str])];

/// The post and forces that carry it.
const CARRIED: Files = &[("model", &[POST]), ("certificate", &[FORCES])];

/// The post, and forces that pull.
const PULLED: Files = &[
    ("model", &[POST]),
    (
        "certificate",
        &["stands\nforces 1 0\npush -1 0\npush 24 0\nend\n"],
    ),
];

const TIPPING: Files = &[("model", &[POST, PUSH])];

const ORDERED: Files = &[
    ("model", &[POST]),
    ("order", &["post\n"]),
    ("twice", &["post\npost\n"]),
];

/// The post, pushed and pressed, and directions.
const DIRECTED: Files = &[
    ("model", &[POST, PUSH, PRESSURE]),
    ("down", &["dir 0 1\n"]),
    ("aside", &["dir 1 0\n"]),
    ("nowhere", &["dir 0 0\n"]),
];

/// What the program answers if no stream fails.
#[derive(Clone, Copy)]
enum Answer {
    /// This status, and this text on standard output.
    Says(u8, &'static str),
    /// A text on standard output of which this is the front.
    Begins(&'static str),
    /// This status, and this line on standard error.
    Refuses(u8, &'static str),
}

type Words = &'static [&'static str];

/// Rows over one shelf with these files, whose listed reads fail; and how many reads the rows ask for.
#[derive(Clone, Copy)]
struct Case {
    name: &'static str,
    files: Files,
    fails: &'static [u64],
    rows: &'static [(Words, Answer)],
    asked: usize,
}

const CHECK: Words = &["check", "model", "certificate"];

const CONTACTS: Words = &["contacts", "model"];

/// Forms that judge nothing, and words without a form, which ask for no file.
const PLAIN: &[Case] = &[
    Case {
        name: "a post that is carried",
        files: CARRIED,
        fails: &[],
        rows: &[
            (CHECK, Answer::Says(0, "accepted\n")),
            (CONTACTS, Answer::Says(0, TABLE)),
            (&["table", "model", "certificate"], Answer::Says(0, TABLES)),
            (&["sample", "0"], Answer::Says(0, SAMPLE)),
            (&["stack", "slab", "7"], Answer::Refuses(5, "model size\n")),
        ],
        asked: 5,
    },
    Case {
        name: "forces that pull",
        files: PULLED,
        fails: &[],
        rows: &[(CHECK, Answer::Says(1, "rejected first push 1\n"))],
        asked: 2,
    },
    Case {
        name: "words without a form",
        files: CARRIED,
        fails: &[],
        rows: &[
            (&[], Answer::Refuses(2, "words\n")),
            (&["check", "model"], Answer::Refuses(2, "words\n")),
            (
                &["check", "model", "certificate", "more"],
                Answer::Refuses(2, "words\n"),
            ),
        ],
        asked: 0,
    },
];

/// Verdicts, ranges and stages.
const JUDGED: &[Case] = &[
    Case {
        name: "a post that is judged",
        files: CARRIED,
        fails: &[],
        rows: &[
            (&["stand", "model", "3"], Answer::Refuses(8, "spent 3\n")),
            (&["load", "model"], Answer::Refuses(9, "no live load\n")),
            (&["stand", "model", "4"], Answer::Begins("stands\n")),
            (&["range", "model"], Answer::Refuses(9, "no live load\n")),
        ],
        asked: 4,
    },
    Case {
        name: "the range of a pushed post",
        files: TIPPING,
        fails: &[],
        rows: &[
            (&["range", "model", "1"], Answer::Refuses(8, "spent 1\n")),
            (
                &["range", "model"],
                Answer::Begins("range -2/1 2/1\ngreatest\n"),
            ),
        ],
        asked: 2,
    },
    Case {
        name: "the stages of an order",
        files: ORDERED,
        fails: &[],
        rows: &[
            (
                &["stages", "model", "order"],
                Answer::Says(0, "stage 1 stands\nall stand\n"),
            ),
            (
                &["stages", "model", "order", "1"],
                Answer::Refuses(8, "spent 1\n"),
            ),
            (
                &["stages", "model", "twice"],
                Answer::Refuses(13, "order line 2\n"),
            ),
            (
                &["stages", "model", "none"],
                Answer::Refuses(3, "file order\n"),
            ),
        ],
        asked: 8,
    },
];

/// Regions.
const BOUNDED: &[Case] = &[Case {
    name: "the region of a push and a pressure",
    files: DIRECTED,
    fails: &[],
    rows: &[
        (
            &["yield", "model", "1", "2", "down"],
            Answer::Says(0, "region 1\ndir 0 1 unlimited\n"),
        ),
        (
            &["yield", "model", "1", "2", "aside", "1"],
            Answer::Refuses(8, "spent 1\n"),
        ),
        (
            &["yield", "model", "1", "2", "nowhere"],
            Answer::Refuses(14, "directions line 1\n"),
        ),
        (
            &["yield", "model", "1", "2", "none"],
            Answer::Refuses(3, "file directions\n"),
        ),
        (
            &["yield", "model", "1", "3", "down"],
            Answer::Refuses(15, "no pair 3\n"),
        ),
        (
            &["yield", "model", "1", "2", "aside"],
            Answer::Begins("region 1\ndir 1 0 reach 2/1 0/1\nhalf "),
        ),
    ],
    asked: 11,
}];

/// Reads that fail.
const READS: &[Case] = &[
    Case {
        name: "a first read that fails",
        files: CARRIED,
        fails: &[1],
        rows: &[(CHECK, Answer::Refuses(3, "file model\n"))],
        asked: 1,
    },
    Case {
        name: "a second read that fails",
        files: CARRIED,
        fails: &[2],
        rows: &[(CHECK, Answer::Refuses(3, "file certificate\n"))],
        asked: 2,
    },
];

/// What fails of the two streams: the puts of each after so many bytes, and the room of the first.
#[derive(Clone, Copy)]
struct Faults {
    out: &'static [(u64, usize)],
    room: usize,
    err: &'static [(u64, usize)],
}

const NO_FAULTS: Faults = Faults {
    out: &[],
    room: 1000,
    err: &[],
};

/// A status, what the output begins and ends with, whether the front is all of it, the error line, and how often each
/// stream is called.
#[derive(Clone, Copy)]
struct Told {
    status: u8,
    front: &'static str,
    end: &'static str,
    is_whole: bool,
    err: &'static str,
    calls: (u64, u64),
}

/// What must be seen of an answer if no stream fails.
fn told_of(answer: &Answer) -> Told {
    let (status, front, is_whole, err, calls) = match *answer {
        Answer::Says(status, text) => (status, text, true, "", (1, 0)),
        Answer::Begins(front) => (0, front, false, "", (1, 0)),
        Answer::Refuses(status, line) => (status, "", true, line, (0, 1)),
    };
    Told {
        status,
        front,
        end: "",
        is_whole,
        err,
        calls,
    }
}

/// A run over these files whose streams fail.
#[derive(Clone, Copy)]
struct Delivery {
    files: Files,
    words: Words,
    faults: Faults,
    told: Told,
}

/// A certificate that is kept whole stands, though its put fails; an output that is cut off; one that doesn't fit; and
/// a refusal whose line fails.
const DELIVERIES: &[Delivery] = &[
    Delivery {
        files: CARRIED,
        words: &["stand", "model"],
        faults: Faults {
            out: &[(1, 1000)],
            room: 1000,
            err: &[],
        },
        told: Told {
            status: 10,
            front: "stands\n",
            end: "end\n",
            is_whole: false,
            err: "output\n",
            calls: (1, 1),
        },
    },
    Delivery {
        files: CARRIED,
        words: CHECK,
        faults: Faults {
            out: &[(1, 3)],
            room: 100,
            err: &[],
        },
        told: Told {
            status: 10,
            front: "acc",
            end: "acc",
            is_whole: true,
            err: "output\n",
            calls: (1, 1),
        },
    },
    Delivery {
        files: CARRIED,
        words: CONTACTS,
        faults: Faults {
            out: &[],
            room: 10,
            err: &[],
        },
        told: Told {
            status: 10,
            front: "",
            end: "",
            is_whole: true,
            err: "output\n",
            calls: (1, 1),
        },
    },
    Delivery {
        files: &[],
        words: CHECK,
        faults: Faults {
            out: &[],
            room: 100,
            err: &[(1, 0)],
        },
        told: Told {
            status: 3,
            front: "",
            end: "",
            is_whole: true,
            err: "",
            calls: (0, 1),
        },
    },
];

fn file(alloc: Global, name: &str, pieces: &[&str]) -> Option<(String, Vec<u8>)> {
    let bytes = pieces.concat(alloc).ok()?.into_bytes();
    let name = String::from_str(alloc, name).ok()?;
    Some((name, bytes))
}

fn held(alloc: Global, files: Files) -> Option<Vec<(String, Vec<u8>)>> {
    let mut held = Vec::new(alloc);
    for (name, pieces) in files {
        held.push(file(alloc, name, pieces)?).ok()?;
    }
    Some(held)
}

/// A shelf with these files, whose listed reads fail.
fn shelf(alloc: Global, files: Files, fails: &[u64]) -> Option<MemoryShelf> {
    let fails = fails.to_vec(alloc).ok()?;
    Some(MemoryShelf::new(held(alloc, files)?, fails))
}

fn strings(alloc: Global, words: &[&str]) -> Option<Vec<String>> {
    let mut strings = Vec::new(alloc);
    for word in words {
        let string = String::from_str(alloc, word).ok()?;
        strings.push(string).ok()?;
    }
    Some(strings)
}

/// A sink with this room, whose listed puts fail after so many bytes.
fn sink(alloc: Global, fails: &[(u64, usize)], room: usize) -> Option<MemorySink> {
    let fails = fails.to_vec(alloc).ok()?;
    MemorySink::new(fails, room).ok()
}

/// Whether this is the status, and the streams took what is told.
fn is_told(status: u8, out: &MemorySink, err: &MemorySink, told: &Told) -> bool {
    let written = out.written();
    status == told.status
        && written.starts_with(told.front.as_bytes())
        && written.ends_with(told.end.as_bytes())
        && (written.len() == told.front.len() || !told.is_whole)
        && err.written() == told.err.as_bytes()
        && (out.calls(), err.calls()) == told.calls
}

/// Whether the program answers so over the shelf and this output, with an error stream that fails so.
fn tells_on(
    alloc: Global,
    given: Given,
    shelf: &mut MemoryShelf,
    out: &mut MemorySink,
    fails: &[(u64, usize)],
    told: &Told,
) -> bool {
    match sink(alloc, fails, 100) {
        Some(mut err) => {
            let status = run_given(alloc, given, shelf, out, &mut err);
            is_told(status, out, &err, told)
        }
        None => false,
    }
}

/// Whether the program, given this, answers so over the shelf, with streams that fail so.
fn tells(
    alloc: Global,
    given: Given,
    shelf: &mut MemoryShelf,
    faults: &Faults,
    told: &Told,
) -> bool {
    match sink(alloc, faults.out, faults.room) {
        Some(mut out) => tells_on(alloc, given, shelf, &mut out, faults.err, told),
        None => false,
    }
}

fn tells_words(
    alloc: Global,
    words: Words,
    shelf: &mut MemoryShelf,
    faults: &Faults,
    told: &Told,
) -> bool {
    match strings(alloc, words) {
        Some(words) => tells(alloc, Given::Words(words), shelf, faults, told),
        None => false,
    }
}

/// Whether all rows of a case hold over its shelf, and ask for so many reads.
fn all_hold(alloc: Global, shelf: &mut MemoryShelf, case: &Case) -> bool {
    for (words, answer) in case.rows {
        if !tells_words(alloc, *words, shelf, &NO_FAULTS, &told_of(answer)) {
            return false;
        }
    }
    shelf.asked().len() == case.asked
}

fn holds(alloc: Global, case: &Case) -> bool {
    match shelf(alloc, case.files, case.fails) {
        Some(mut shelf) => all_hold(alloc, &mut shelf, case),
        None => false,
    }
}

/// The first case that doesn't hold.
fn wrong(alloc: Global, cases: &[Case]) -> Option<&'static str> {
    for case in cases {
        if !holds(alloc, case) {
            return Some(case.name);
        }
    }
    None
}

#[test]
fn forms_that_judge_nothing_are_answered(rt: HostRuntime) {
    assert!(rt; wrong(rt.alloc(), PLAIN).is_none());
}

#[test]
fn verdicts_ranges_and_stages_are_answered(rt: HostRuntime) {
    assert!(rt; wrong(rt.alloc(), JUDGED).is_none());
}

#[test]
fn regions_are_answered_and_reads_that_fail_are_refused(rt: HostRuntime) {
    assert!(rt; wrong(rt.alloc(), BOUNDED).is_none());
    assert!(rt; wrong(rt.alloc(), READS).is_none());
}

fn is_delivered(alloc: Global, delivery: &Delivery) -> bool {
    match shelf(alloc, delivery.files, &[]) {
        Some(mut shelf) => tells_words(
            alloc,
            delivery.words,
            &mut shelf,
            &delivery.faults,
            &delivery.told,
        ),
        None => false,
    }
}

/// How many are delivered, up to the first that isn't.
fn delivered(alloc: Global, deliveries: &[Delivery]) -> usize {
    for (k, delivery) in deliveries.iter().enumerate() {
        if !is_delivered(alloc, delivery) {
            return k;
        }
    }
    deliveries.len()
}

#[test]
fn devices_that_fail_are_told_apart(rt: HostRuntime) {
    assert!(rt; delivered(rt.alloc(), DELIVERIES) == 4);
}

/// Whether words of which one can't be read, and words for which there was no memory, are refused so.
fn are_refused(alloc: Global) -> [bool; 2] {
    let mut shelf = MemoryShelf::new(Vec::new(alloc), Vec::new(alloc));
    let unreadable = told_of(&Answer::Refuses(2, "words\n"));
    let memory = told_of(&Answer::Refuses(11, "memory\n"));
    [
        tells(
            alloc,
            Given::Unreadable,
            &mut shelf,
            &NO_FAULTS,
            &unreadable,
        ),
        tells(alloc, Given::Memory, &mut shelf, &NO_FAULTS, &memory),
    ]
}

/// All words that can be read are given so in the other tests.
#[test]
fn words_are_taken_as_the_runtime_gives_them(rt: HostRuntime) {
    assert!(rt; are_refused(rt.alloc()) == [true; 2]);
}

/// Whether the top call answers so over the shelf and this output.
fn runs_on(
    alloc: Global,
    words: &[String],
    shelf: &mut MemoryShelf,
    out: &mut MemorySink,
    told: &Told,
) -> bool {
    match sink(alloc, &[], 100) {
        Some(mut err) => {
            let status = run(alloc, words, shelf, out, &mut err);
            is_told(status, out, &err, told)
        }
        None => false,
    }
}

/// The top call by itself: forces that carry the post are accepted.
fn accepts(alloc: Global) -> Option<bool> {
    let words = strings(alloc, CHECK)?;
    let mut shelf = shelf(alloc, CARRIED, &[])?;
    let mut out = sink(alloc, &[], 100)?;
    let told = told_of(&Answer::Says(0, "accepted\n"));
    Some(runs_on(alloc, words.as_slice(), &mut shelf, &mut out, &told))
}

#[test]
fn the_top_call_is_asked_by_itself(rt: HostRuntime) {
    assert!(rt; accepts(rt.alloc()) == Some(true));
}
