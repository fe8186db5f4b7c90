// Replays link logs and prints a line for each: the case, and what the operation answers. The lines of document 02 begin with its number;
// beside them stand further cases of the same kinds.
#![tactic(auto)]

use std::io;

// Network A of document 01.
const NETWORK_A: &[u8] =
    b"\x04\x00\x03\x05\x00\x01\x02\x01\x01\x03\x01\x01\x01\x02\x01\x01\x02\x03\x01\x02\x00\x02\x01\x03";

// Two hops of transit 1 and capacity 1, one after the other.
const RELAY: &[u8] = b"\x03\x00\x02\x02\x00\x01\x01\x01\x01\x02\x01\x01";

// A loop of two hops of transit 0 and capacity 5, which the origin does not reach.
const HALL: &[u8] = b"\x04\x00\x03\x02\x01\x02\x05\x00\x02\x01\x05\x00";

// A case, and what replaying its log answers.
fn show(rt: &impl Print, case: &str, net: &[u8], log: &[u8]) -> io::Result<()> {
    match replay::replay(net, log) {
        Err(refusal) => println!(rt; "{case}: refusal {}", refusal.number()),
        Ok(found) => {
            println!(rt;
                "{case}: finding {} delivered {}",
                found.number(),
                found.delivered()
            )
        }
    }
}

// Findings and figures.
fn findings(rt: &impl Print) -> io::Result<()> {
    show(rt, "02 replay an empty log", RELAY, b"")?;
    show(
        rt,
        "02 replay the log of A's plan, the counter rolling over",
        NETWORK_A,
        b"\xfe\xff\xff\xff\x00\x02\xff\xff\xff\xff\x00\x01\xff\xff\xff\xff\x01\x01\xff\xff\xff\xff\x02\x01\x00\x00\x00\x00\x00\x01\x00\x00\x00\x00\x01\x01\x00\x00\x00\x00\x03\x01\x01\x00\x00\x00\x01\x01\x02\x00\x00\x00\x01\x00",
    )?;
    show(
        rt,
        ".. replay a block sent on in the slot of its arrival",
        RELAY,
        b"\x05\x00\x00\x00\x00\x01\x06\x00\x00\x00\x01\x01",
    )?;
    show(
        rt,
        "02 replay the same with a last entry of 0 blocks",
        RELAY,
        b"\x05\x00\x00\x00\x00\x01\x06\x00\x00\x00\x01\x01\x07\x00\x00\x00\x01\x00",
    )?;
    show(
        rt,
        "02 replay a block sent on one slot too early",
        RELAY,
        b"\x05\x00\x00\x00\x00\x01\x05\x00\x00\x00\x01\x01\x07\x00\x00\x00\x01\x00",
    )?;
    show(
        rt,
        "02 replay two entries for one link and slot",
        RELAY,
        b"\x05\x00\x00\x00\x00\x01\x05\x00\x00\x00\x00\x01",
    )?;
    show(
        rt,
        "02 replay both faults",
        RELAY,
        b"\x05\x00\x00\x00\x00\x02\x05\x00\x00\x00\x01\x01",
    )
}

// Stamps across the rollover, distances and slots at and past their limits.
fn stamps(rt: &impl Print) -> io::Result<()> {
    show(
        rt,
        "02 replay FF FF FF FF to 00 00 00 00",
        RELAY,
        b"\xff\xff\xff\xff\x00\x01\x00\x00\x00\x00\x01\x01\x01\x00\x00\x00\x01\x00",
    )?;
    show(
        rt,
        "02 replay a distance of 2147483648",
        RELAY,
        b"\x00\x00\x00\x00\x00\x00\x00\x00\x00\x80\x00\x00",
    )?;
    show(
        rt,
        "02 replay slot 100063000",
        RELAY,
        b"\x00\x00\x00\x00\x00\x00\x18\xd7\xf6\x05\x00\x00",
    )?;
    show(
        rt,
        "02 replay slot 100063001",
        RELAY,
        b"\x00\x00\x00\x00\x00\x00\x19\xd7\xf6\x05\x00\x00",
    )
}

// As many entries of stamp, link and blocks 0 as a log may have, and the first octet of one more.
fn many(rt: &impl Print) -> io::Result<()> {
    show(rt, "02 replay 4096 entries", RELAY, &[0; 24576])?;
    show(rt, "02 replay the 4097th entry", RELAY, &[0; 24577])
}

// Entries that are cut short, misspelled or out of limits.
fn entries(rt: &impl Print) -> io::Result<()> {
    show(rt, ".. replay a stamp cut short", RELAY, b"\x00\x00\x00")?;
    show(rt, ".. replay a link cut short", RELAY, b"\x00\x00\x00\x00")?;
    show(
        rt,
        ".. replay link 2 of 2",
        RELAY,
        b"\x00\x00\x00\x00\x02\x00",
    )?;
    show(
        rt,
        ".. replay padded blocks",
        RELAY,
        b"\x00\x00\x00\x00\x00\x80\x00",
    )?;
    show(
        rt,
        ".. replay 10001 blocks",
        RELAY,
        b"\x00\x00\x00\x00\x00\x91\x4e",
    )?;
    show(rt, ".. replay a network cut short", b"\x03", b"\x00")
}

fn main(rt: HostRuntime) -> io::Result<()> {
    findings(&rt)?;
    show(
        &rt,
        ".. replay a loop of transit 0 that feeds itself",
        HALL,
        b"\x00\x00\x00\x00\x00\x05\x00\x00\x00\x00\x01\x05",
    )?;
    stamps(&rt)?;
    many(&rt)?;
    entries(&rt)
}
