//! Stores from outside, with ample memory: bodies that open to a content, and what a store makes of what its node is told.
use std::alloc::Global;
use std::test::Fail;
use tp_bound::Bound;
use tp_journal::StartFault;
use tp_names::{Aaid, Mark, NoMemory, Octets, SiteName};
use tp_outside::MemDisk;
use tp_records::{Indication, Member, Request};

// One write: the key k gets the value v.
const ONE: &[u8] = &[0, 1, 1, 1, 0x6b, 0, 1, 0x76];

// The keys b, a and ab are put, and b is taken out.
const FOUR: &[u8] = &[
    0, 4, 1, 1, 0x62, 0, 1, 1, 1, 1, 0x61, 0, 0, 1, 2, 0x61, 0x62, 0, 1, 2, 2, 1, 0x62,
];

// A Bind with these writes, a Keep or a Drop: a capital is of one tree, and a small letter of another.
fn body(alloc: Global, letter: u8, writes: &[u8]) -> Result<Vec<u8>, NoMemory> {
    let (code, tree) = match letter {
        b'B' => (1, 1),
        b'K' => (2, 1),
        b'D' => (3, 1),
        b'b' => (1, 2),
        b'k' => (2, 2),
        _ => (3, 2),
    };
    // A tree of site a has a mark of boot 1, node 1, and a count.
    let mut body = [
        code, 1, 0x61, 0, 0, 0, 0, 0, 0, 0, 1, 0, 1, 0, 0, 0, 0, 0, 0, 0, tree,
    ]
    .to_vec(alloc)?;
    if code == 1 {
        body.extend_from_slice(writes)?;
    }
    Ok(body)
}

// An open gate, the length of the body, and the body.
fn push_block(file: &mut Vec<u8>, body: &[u8]) -> Result<(), NoMemory> {
    let len = (body.len() % 65_536) as u16;
    file.push(1)?;
    file.extend_from_slice(&len.to_be_bytes())?;
    file.extend_from_slice(body)?;
    Ok(())
}

fn disk_with(alloc: Global, bodies: &[Vec<u8>]) -> Result<MemDisk, NoMemory> {
    let mut file = b"OTPL\x01".to_vec(alloc)?;
    for body in bodies {
        push_block(&mut file, body)?;
    }
    file.push(0)?;
    Ok(MemDisk::from(alloc, Octets::from_slice(alloc, &file)?))
}

// A store of the bodies with these letters.
fn disk_of(alloc: Global, letters: &[u8], writes: &[u8]) -> Result<MemDisk, NoMemory> {
    let mut bodies = Vec::new(alloc);
    for letter in letters {
        bodies.push(body(alloc, *letter, writes)?)?;
    }
    disk_with(alloc, &bodies)
}

// The keys with their values, and a `?` where a Bind is undecided.
fn shown(alloc: Global, bound: &Bound<MemDisk>) -> Result<Vec<u8>, NoMemory> {
    let mut text = Vec::new(alloc);
    for i in 0..3 {
        if i < bound.len() {
            let key = bound.key(i);
            text.extend_from_slice(key)?;
            text.push(b'=')?;
            text.extend_from_slice(bound.get(key).unwrap_or(b"none"))?;
            text.push(b' ')?;
        }
    }
    if bound.undecided().is_some() {
        text.push(b'?')?;
    }
    Ok(text)
}

fn opened(alloc: Global, disk: MemDisk) -> Result<Bound<MemDisk>, StartFault> {
    match Bound::open(alloc, disk, 2) {
        Ok(bound) => Ok(bound),
        Err((_, fault)) => Err(fault),
    }
}

// Bodies, and what their store shows.
const STORES: &[(&[u8], &[u8], &[u8])] = &[
    (b"", ONE, b""),
    (b"B", ONE, b"?"),
    (b"BK", ONE, b"k=v "),
    (b"BD", ONE, b""),
    (b"BKb", ONE, b"k=v ?"),
    (b"BK", FOUR, b"a= ab=\x02 "),
];

#[test]
fn stores_that_open(rt: HostRuntime) -> Result<(), Fail> {
    let alloc = rt.alloc();
    for (letters, writes, shows) in STORES {
        let bound = opened(alloc, disk_of(alloc, letters, writes)?)?;
        assert_eq!(rt; shown(alloc, &bound)?.as_slice(), *shows);
    }
    Ok(())
}

// What a node is told: a transaction begins, a write and what is none, prepare, commit, rollback.
fn told(alloc: Global, letter: u8) -> Option<Indication> {
    Some(match letter {
        b'b' => Indication::BeginTransaction {
            peer: 1,
            aaid: Aaid {
                owner: SiteName::new(b"a")?,
                mark: Mark {
                    boot: 1,
                    node: 1,
                    count: 1,
                },
            },
        },
        b'w' => Indication::UserData {
            peer: 1,
            octets: Octets::from_slice(alloc, &ONE[2..]).ok()?,
        },
        b'x' => Indication::UserData {
            peer: 1,
            octets: Octets::from_slice(alloc, ONE).ok()?,
        },
        b'p' => Indication::Prepare,
        b'c' => Indication::Commit,
        _ => Indication::Rollback,
    })
}

fn letter_of(answer: Option<Request>) -> u8 {
    match answer {
        None => b'-',
        Some(Request::Commit) => b'C',
        Some(Request::Rollback) => b'R',
        Some(Request::Done) => b'D',
        Some(_) => b'?',
    }
}

// What a store of node 2 answers to these, one after the other.
fn answers(alloc: Global, store: &mut Bound<MemDisk>, letters: &[u8]) -> Option<Vec<u8>> {
    let mut said = Vec::new(alloc);
    for letter in letters {
        let answer = store.told(alloc, 2, &told(alloc, *letter)?).ok()?;
        said.push(letter_of(answer)).ok()?;
    }
    Some(said)
}

// What a store is told, what it answers, and the bodies that it has then.
const TALKS: &[(&[u8], &[u8], &[u8])] = &[
    (b"bwp", b"--C", b"B"),
    (b"bwpcc", b"--CDD", b"BK"),
    (b"bwprp", b"--CDR", b"BD"),
    (b"bwpb", b"--C-", b"BD"),
    (b"bxwp", b"---R", b""),
    (b"wpc", b"-RD", b""),
];

#[test]
fn a_store_is_told(rt: HostRuntime) -> Result<(), Fail> {
    let alloc = rt.alloc();
    for (letters, says, bodies) in TALKS {
        let mut bound = opened(alloc, disk_of(alloc, b"", ONE)?)?;
        let said = answers(alloc, &mut bound, letters);
        assert_eq!(rt; said.unwrap_or(Vec::new(alloc)).as_slice(), *says);
        assert_eq!(rt; bound.faults(), 0);
        let disk = bound.disk();
        assert_eq!(rt; disk.bytes(), disk_of(alloc, bodies, ONE)?.bytes());
    }
    Ok(())
}
