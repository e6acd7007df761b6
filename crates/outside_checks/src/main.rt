//! Checks of what mtcc reads and writes, by what they print: objects in memory, readers and writers that falter, and files
//! of the host, which it makes in the folder where it runs and removes again.
#![tactic(auto)]

mod falter;
mod host;
mod memory;
mod trace;

use std::io;

fn main(rt: HostRuntime) -> io::Result<()> {
    let alloc = rt.alloc();
    println!(rt; "files in memory: {}", memory::files(alloc)?)?;
    println!(rt; "a source in memory: {}", memory::source(alloc)?)?;
    println!(rt; "a sink in memory: {}", memory::sink(alloc)?)?;
    println!(rt; "a reader that falters: {}", falter::source(alloc)?)?;
    println!(rt; "a writer that falters: {}", falter::sink(alloc)?)?;
    println!(rt; "files of the host: {}", host::small(&rt, alloc)?)?;
    println!(rt;
        "a long file that is written: {}",
        host::long_written(&rt, alloc)?
    )?;
    println!(rt;
        "a long file that is read: {}",
        host::long_read(&rt, alloc)?
    )?;
    println!(rt;
        "a file over the limit: {}",
        host::over_the_limit(&rt, alloc)?
    )?;
    Ok(())
}
