use sheet::RefusalNumber;

// A line for what came of a call: accepted, or refused with the refusal's number, 0 for one without a number.
pub(crate) fn show<T: Drop, E: RefusalNumber>(
    rt: &HostRuntime,
    case: &str,
    answer: Result<T, E>,
) -> anyhow::Result<()> {
    match answer.err() {
        None => println!(rt; "{case},accepted")?,
        Some(refused) => println!(rt; "{case},refused,{}", refused.number().unwrap_or(0))?,
    }
    Ok(())
}
