// Prints the sheet of the sitting on standard input.
#![tactic(auto)]

fn main(rt: HostRuntime) {
    printing::print_sheet(
        &mut rt.stdin(),
        &mut rt.stdout(),
        &mut rt.stderr(),
        u64::MAX,
    );
}
