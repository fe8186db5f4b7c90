// Prints the listing of standard input: a network record's length as a number, that record, a plan record. Reads at most 65,536
// octets. An input that cannot be read and output that is lost are told on standard error.
#![tactic(auto)]

fn main(rt: HostRuntime) {
    printing::run(
        &rt,
        "list",
        &mut rt.stdin(),
        &mut rt.stdout(),
        listing::list,
    )
}
