// Numbers of documents 01 and 02 that are run: a line for each, its name and what came out. A module for each thing that is run.
#![tactic(auto)]

mod bench;
mod normals;
mod number;
mod patches;
mod ring;
mod taken;
mod units;

use bench::Bench;
use std::io;

fn main(rt: HostRuntime) -> io::Result<()> {
    let mut bench = Bench::fresh();
    ring::starred_count(&rt)?;
    ring::filled(&rt)?;
    taken::xf_loads(&rt, &mut bench)?;
    taken::indexed_load(&rt, &mut bench)?;
    taken::bp_loads(&rt, &mut bench)?;
    taken::draws(&rt, &mut bench)?;
    patches::written(&rt)?;
    normals::fractions(&rt)?;
    normals::others(&rt)?;
    units::metrics(&rt, &mut bench)?;
    units::waiting(&rt, &mut bench)?;
    units::stopping(&rt, &mut bench)?;
    ring::mebibyte(&rt)
}
