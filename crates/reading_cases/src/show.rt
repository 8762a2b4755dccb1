use sheet::{Draft, RefusalNumber};
use sheet_lines::Fault;
use sheet_reading::{Found, read};

// The line of a text that was read: how many parts and paths, and the feed part.
fn show_found(rt: &HostRuntime, parts: usize, found: Found) -> anyhow::Result<()> {
    let feed = found.feed.number();
    println!(rt; "read,{parts},{},{feed}", found.path_count)?;
    Ok(())
}

// The line of a text that was refused.
fn show_fault(rt: &HostRuntime, fault: Fault) -> anyhow::Result<()> {
    let Fault {
        refusal,
        line,
        field,
    } = fault;
    match refusal.number() {
        Some(number) => println!(rt; "refused,{number},{},{line},{field}", refusal.layer())?,
        None => println!(rt; "out of memory")?,
    }
    Ok(())
}

// Reads a text, where the list of paths has so many entries, and prints what came of it.
pub(crate) fn show(rt: &HostRuntime, text: &[u8], entries: u16) -> anyhow::Result<()> {
    let mut draft = Draft::new(rt.alloc());
    let mut paths = vec![in rt.alloc(); 0; entries as usize]?;
    match read(rt.alloc(), text, &mut draft, &mut paths) {
        Ok(found) => show_found(rt, draft.count(), found),
        Err(fault) => show_fault(rt, fault),
    }
}
