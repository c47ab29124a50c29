//! The slow machine judges as the checker does.

use dc_check::{Stamp, Verdict, check};
use dc_names::NoMemory;
use dc_plain::{Call, Follow, OwnCall, PlainTree, Reply};
use std::alloc::Global;
use std::test::Fail;

/// Paths of few names, so that calls meet what others left. Some lead through links.
static PATHS: [&[u8]; 8] = [
    b"/a",
    b"/b",
    b"/a/b",
    b"/a/c",
    b"/b/a",
    b"/l",
    b"/l/a",
    b"/a/../b/",
];

/// The next number of a fixed sequence in which none seems to follow from the one before.
fn drawn(number: u32) -> u32 {
    number.wrapping_mul(1_664_525).wrapping_add(1_013_904_223)
}

/// One of the paths.
fn path_of(number: u32) -> &'static [u8] {
    PATHS[(number >> 24) as usize % PATHS.len()]
}

/// A call of one of the kinds, most of them changes.
fn call_of(number: u32) -> Call<'static> {
    let (base, path, other) = (1, path_of(number), path_of(drawn(number)));
    match (number >> 12) % 12 {
        0 | 1 | 2 => Call::Mkdir { base, path },
        3 | 4 => Call::Create { base, path },
        5 => Call::Link {
            base,
            old: other,
            new: path,
        },
        6 => Call::Symlink {
            base,
            text: other,
            path,
        },
        7 => Call::Unlink { base, path },
        8 => Call::Rmdir { base, path },
        9 => Call::List { base, path },
        10 => Call::Readlink { base, path },
        _ => Call::Look {
            base,
            path,
            follow: Follow::Yes,
        },
    }
}

/// The slow machine, how many changes it has made, and what the next call is drawn by.
#[derive(Drop)]
struct Slow {
    tree: PlainTree,
    at: u64,
    number: u32,
}

impl Slow {
    fn new(alloc: Global, number: u32) -> Result<Slow, NoMemory> {
        let tree = PlainTree::new(alloc, 6)?;
        Ok(Slow {
            tree,
            at: 0,
            number,
        })
    }

    /// What the machine answers to a call, which is counted if it is a change.
    fn answer(&mut self, alloc: Global, call: &Call<'_>) -> Result<Reply, NoMemory> {
        let altered = self.tree.alters(alloc, call)?;
        let reply = self.tree.apply(alloc, call)?;
        self.at = self.at.saturating_add(u64::from(altered));
        Ok(reply)
    }

    /// A call that is drawn, with the machine's answer.
    fn stamp(&mut self, alloc: Global) -> Result<Stamp, NoMemory> {
        self.number = drawn(self.number);
        let (call, at) = (call_of(self.number), self.at);
        Ok(Stamp {
            session: 0,
            call: OwnCall::of(alloc, &call)?,
            reply: self.answer(alloc, &call)?,
            at,
        })
    }

    /// Here and there the reply or the point of a stamp becomes another.
    fn spoil(&mut self, stamp: &mut Stamp, faults: u32) {
        self.number = drawn(self.number);
        match (self.number >> 8).checked_rem(faults) {
            Some(0) => stamp.reply = Reply::Refused(2),
            Some(1) => stamp.at = self.at,
            _ => {}
        }
    }

    /// One more call of a record.
    fn push(
        &mut self,
        alloc: Global,
        stamps: &mut Vec<Stamp>,
        faults: u32,
    ) -> Result<(), NoMemory> {
        let mut stamp = self.stamp(alloc)?;
        self.spoil(&mut stamp, faults);
        stamps.push(stamp)?;
        Ok(())
    }

    /// Whether the machine gives this reply at this point.
    fn gives(&mut self, alloc: Global, stamp: &Stamp) -> Result<bool, NoMemory> {
        let at = self.at;
        let reply = self.answer(alloc, &stamp.call.as_call())?;
        Ok(stamp.at == at && reply == stamp.reply)
    }
}

/// Calls of one session one after the other, with what the slow machine answers. Here and there a reply
/// or a point is another.
fn record(
    alloc: Global,
    number: u32,
    calls: u32,
    faults: u32,
) -> Result<(Vec<Stamp>, u32), NoMemory> {
    let mut slow = Slow::new(alloc, number)?;
    let mut stamps = Vec::new(alloc);
    for _ in 0..calls {
        slow.push(alloc, &mut stamps, faults)?;
    }
    Ok((stamps, slow.number))
}

/// Whether the slow machine gives the replies of one session's stamps, one after the other, each at its
/// point.
fn is_run(alloc: Global, stamps: &[Stamp]) -> Result<bool, NoMemory> {
    let mut slow = Slow::new(alloc, 0)?;
    for stamp in stamps {
        if !slow.gives(alloc, stamp)? {
            return Ok(false);
        }
    }
    Ok(true)
}

/// Whether a record is legal. Fails if checker and slow machine judge it differently.
fn is_legal(alloc: Global, stamps: &[Stamp]) -> Result<bool, Fail> {
    let legal = check(alloc, 6, stamps)? == Verdict::Legal;
    if is_run(alloc, stamps)? != legal {
        return Err(Fail::from(stamps));
    }
    Ok(legal)
}

/// How many of 2,000 records of one session's eight calls are legal.
fn legal_records(alloc: Global) -> Result<u64, Fail> {
    let mut number = 7;
    let mut legal = 0u64;
    for _ in 0..2_000 {
        let (stamps, later) = record(alloc, number, 8, 12)?;
        number = later;
        legal = legal.saturating_add(u64::from(is_legal(alloc, &stamps)?));
    }
    Ok(legal)
}

/// One session's stamps are legal exactly if they are a run, and both verdicts come often.
#[test]
fn judges_as_the_slow_machine_does(rt: HostRuntime) -> Result<(), Fail> {
    let legal = legal_records(rt.alloc())?;
    assert!(rt; (400..1_600).contains(&legal), "{legal}");
    Ok(())
}

/// One record of 10,000 replies.
#[test]
fn judges_what_the_slow_machine_answered(rt: HostRuntime) -> Result<(), Fail> {
    let alloc = rt.alloc();
    let (stamps, _) = record(alloc, 7, 10_000, 0)?;
    assert!(rt; is_legal(alloc, &stamps)?);
    Ok(())
}
