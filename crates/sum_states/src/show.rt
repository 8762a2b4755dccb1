use sheet::Sheet;
use states::State;
use structures::Structure;
use summation::sum_states;

// A line for each part: number, grade, failure figure in parts per million, price in cents.
pub(crate) fn print_sheet(rt: &HostRuntime, sheet: &Sheet) -> anyhow::Result<()> {
    println!(rt; "part,grade,ppm,cents")?;
    for (place, part) in sheet.parts().iter().enumerate() {
        let number = place + 1;
        let grade = part.grade.number();
        let ppm = part.failure_ppm();
        println!(rt; "{number},{grade},{ppm},{}", part.cents)?;
    }
    Ok(())
}

// A line for each state of the sheet: number, mass, verdict.
pub(crate) fn print_states<S: Structure>(
    rt: &HostRuntime,
    sheet: &Sheet,
    pile: &S,
) -> anyhow::Result<()> {
    println!(rt; "state,mass,verdict")?;
    for number in 0..1u64 << sheet.count() {
        let state = State::new(number);
        let mass = state.mass(sheet);
        // The words of a listing's verdicts are not used: this program stands on no listing.
        let verdict = if pile.works_in(state) { "up" } else { "down" };
        println!(rt; "{number},{mass},{verdict}")?;
    }
    Ok(())
}

// The sums over all states, out of 10^18, and the reliability in thousand-millionths.
pub(crate) fn print_sums<S: Structure>(
    rt: &HostRuntime,
    sheet: &Sheet,
    pile: &S,
) -> anyhow::Result<()> {
    let sums = sum_states(sheet, pile)?;
    println!(rt; "working,{}", sums.working)?;
    println!(rt; "failing,{}", sums.failing)?;
    println!(rt; "reliability,{}", sums.reliability())?;
    Ok(())
}
