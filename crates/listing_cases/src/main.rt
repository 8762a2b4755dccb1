// Listings on small stations, compared with the sum over all states; and the calls of a listing at their limits. A structure
// and a ranking of this program's own go through them beside those of the libraries.
#![tactic(auto)]

mod by_number;
mod calls_at_limits;
mod many;
mod outcome;
mod sheets;
mod standby;

use calls_at_limits::{empty_path_list, full_listing, no_parts, replayed, runs, stopped};
use many::{foreign, layered, networked, path_lists};

fn run(rt: &HostRuntime) -> anyhow::Result<()> {
    println!(rt; "station,handed,order,lower,upper,against the sum")?;
    path_lists(rt)?;
    layered(rt)?;
    networked(rt)?;
    foreign(rt)?;
    runs(rt)?;
    empty_path_list(rt)?;
    no_parts(rt)?;
    full_listing(rt)?;
    stopped(rt)?;
    replayed(rt)
}

fn main(rt: HostRuntime) -> anyhow::Result<()> {
    run(&rt)
}
