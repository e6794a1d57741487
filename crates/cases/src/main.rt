// Prints the listing of every stored input: data/001, data/002 and so on, each behind a line with its name.
#![tactic(auto)]

fn main(rt: HostRuntime) {
    for number in 1..1000 {
        let Some(mut file) = printing::open_stored(&rt, number) else {
            return;
        };
        printing::print_listing(&rt, &mut file, "stored input");
    }
}
