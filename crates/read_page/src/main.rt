// Reads an archive page from standard input, and writes the sheet that is on it. Ends with status 1 where it is refused.
#![tactic(auto)]

use anyhow::anyhow;
use archive::load;
use changeover::ShortestWalk;
use sheet::Sheet;
use std::io::Read;

fn main(rt: HostRuntime) -> anyhow::Result<()> {
    let heap = rt.alloc();
    let mut page = Vec::new(heap);
    rt.stdin().read_to_end(&mut page)?;
    let mut sheet = Sheet::blank();
    match load(&mut sheet, page.as_slice(), ShortestWalk) {
        Ok(()) => {
            println!(rt; "{sheet}")?;
            Ok(())
        }
        Err(fault) => {
            println!(rt; "refused {fault}")?;
            Err(anyhow!("the page is refused"))
        }
    }
}
