// Stored runs of the digit writer: the numbers whose digits are most easily got wrong, each in a line.
#![tactic(auto)]

use std::io;

fn show(rt: &impl Print, n: u64) -> io::Result<()> {
    let mut text = [0u8; 32];
    let size = lines::put_line(&mut text, b"", n);
    rt.write_all(&text[..size])
}

fn show_all(rt: &impl Print, numbers: &[u64]) -> io::Result<()> {
    for n in numbers {
        show(rt, *n)?;
    }
    Ok(())
}

// Every length, its first number and its last.
fn lengths(rt: &impl Print) -> io::Result<()> {
    show_all(
        rt,
        &[
            1,
            9,
            10,
            99,
            100,
            999,
            1000,
            9999,
            10000,
            99999,
            100000,
            999999,
            1000000,
            9999999,
            10000000,
            99999999,
            100000000,
            999999999,
            1000000000,
            9999999999,
            10000000000,
            99999999999,
            100000000000,
            999999999999,
            1000000000000,
            9999999999999,
            10000000000000,
            99999999999999,
            100000000000000,
            999999999999999,
            1000000000000000,
            9999999999999999,
            10000000000000000,
            99999999999999999,
            100000000000000000,
            999999999999999999,
            1000000000000000000,
            9999999999999999999,
            10000000000000000000,
        ],
    )
}

// Zeros in each place of a triple and between triples.
fn zeros(rt: &impl Print) -> io::Result<()> {
    show_all(
        rt,
        &[
            0,
            7,
            70,
            77,
            100,
            101,
            110,
            700,
            1001,
            1010,
            1100,
            10007,
            10070,
            100700,
            1000007,
            1007000,
            7000000,
            1000000007,
            1000007000,
            1007000000000,
            12000345000678,
        ],
    )
}

// Triples that differ, so that their order shows.
fn orders(rt: &impl Print) -> io::Result<()> {
    show_all(
        rt,
        &[
            12345,
            123456,
            1234567,
            12345678,
            123456789,
            1234567890,
            12345678901234567890,
        ],
    )
}

// The largest of each kind: 8, 16, 32 and 64 bits.
fn largest(rt: &impl Print) -> io::Result<()> {
    show_all(
        rt,
        &[
            255,
            256,
            65535,
            65536,
            4294967295,
            4294967296,
            18446744073709551615,
        ],
    )
}

fn main(rt: HostRuntime) -> io::Result<()> {
    lengths(&rt)?;
    zeros(&rt)?;
    orders(&rt)?;
    largest(&rt)
}
