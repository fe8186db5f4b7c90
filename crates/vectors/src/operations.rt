// Most by a horizon, planning and examining: each case run, and its answer shown. Shown is what document 01 fixes. The cut for a most and
// a plan's rows and cut it leaves to the program: of them the line says whether they hold, in the sense of `held`. That no row visits a
// place twice is not looked at here.
use crate::cases::Case;
use crate::{held, show};
use std::io;

// The most blocks by a horizon, with a list lent for the cut.
fn show_most(
    rt: &impl Print,
    label: &[u8],
    record: &[u8],
    horizon: u64,
    list: &mut [u32],
) -> io::Result<()> {
    let answer = record_optimum::most(record, horizon, list);
    rt.write_all(label)?;
    print!(rt; " by {horizon}")?;
    match answer {
        Err(refusal) => {
            show::refusal(rt, refusal)?;
            show::end(rt, held::within(list, 0, 0), "list kept", "list CHANGED")
        }
        Ok(most) => {
            print!(rt; ": {most}")?;
            let holds = held::cut(record, horizon, most, list);
            show::end(rt, holds, "cut holds", "cut WRONG")
        }
    }
}

// The least horizon for an amount, with a buffer lent for the plan.
fn show_plan(
    rt: &impl Print,
    label: &[u8],
    record: &[u8],
    amount: u64,
    buffer: &mut [u8],
) -> io::Result<()> {
    let answer = record_planner::plan(record, amount, buffer);
    rt.write_all(label)?;
    print!(rt; ", amount {amount}")?;
    match answer {
        Err(refusal) => {
            show::refusal(rt, refusal)?;
            show::end(rt, held::rest(buffer, 0), "buffer kept", "buffer CHANGED")
        }
        Ok(written) => {
            print!(rt; ": horizon {}", written.horizon)?;
            let holds = held::plan(record, amount, written, buffer);
            show::end(rt, holds, "plan holds", "plan WRONG")
        }
    }
}

// Examines the plan whose record is given.
pub fn show_examined(rt: &impl Print, case: Case<'_>, record: &[u8]) -> io::Result<()> {
    let mut buffer = [0; 64];
    let plan = case.octets(&mut buffer);
    rt.write_all(case.label)?;
    match examiner::examine(record, plan) {
        Err(refusal) => show::refusal(rt, refusal)?,
        Ok(judged) => print!(rt;
            ": verdict {} bound {}",
            judged.verdict.number(),
            judged.bound
        )?,
    }
    println!(rt;)
}

// The mosts by each horizon from the first on, up to the one before the end, with as many numbers lent as are given, up to 5. `as`: usize
// has no From<u64>.
pub fn show_mosts(rt: &impl Print, case: Case<'_>, record: &[u8]) -> io::Result<()> {
    let count = case.number(3) as usize;
    for horizon in case.number(1)..case.number(2) {
        let mut list = [held::STALE; 5];
        let lent = held::lent(&mut list, count);
        show_most(rt, case.label, record, horizon, lent)?;
    }
    Ok(())
}

// The least horizons for each amount from the first on, up to the one before the end, with as many octets lent as are given, up to 38,912. `as`:
// usize has no From<u64>.
pub fn show_plans(rt: &impl Print, case: Case<'_>, record: &[u8]) -> io::Result<()> {
    let size = case.number(3) as usize;
    for amount in case.number(1)..case.number(2) {
        let mut buffer = [held::STALE_OCTET; 38912];
        let lent = held::lent(&mut buffer, size);
        show_plan(rt, case.label, record, amount, lent)?;
    }
    Ok(())
}
