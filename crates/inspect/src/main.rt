// The program `inspect`: reads the sheet `plan.bin` from the folder it runs in, and says what it holds or why it is refused.
// The first line is for tools, what follows for a person. It is thin: what loading does is proved in `sheet`, and what a line
// of bars holds in `bars`.
#![tactic(auto)]

use anyhow::Context;
use bars::{line, owns_any};
use plan::plan::Plan;
use reservation::reservation::Reservation;
use sheet::fault::SheetFault;
use sheet::load::load;
use std::fs;
use timetable::table::Timetable;

fn print_plan(rt: &HostRuntime, plan: &Plan) -> anyhow::Result<()> {
    let base = plan.base().ticks;
    let depth = plan.depth();
    let cycle = plan.cycle().ticks;
    let entries = plan.entries().len();
    println!(rt; "base period {base}, depth {depth}, cycle {cycle}, {entries} entries")?;
    println!(rt; "ticks -{cycle} to -1 stand left of the stroke, 0 on right of it")?;
    Ok(())
}

fn print_bars<T: Timetable>(rt: &HostRuntime, timetable: &T) -> anyhow::Result<()> {
    for activity in 0..16u8 {
        if owns_any(timetable, Some(activity)) {
            let bars = line(rt.alloc(), timetable, Some(activity))?;
            println!(rt; "{activity:>4} {bars}")?;
        }
    }
    let bars = line(rt.alloc(), timetable, None)?;
    println!(rt; "free {bars}")?;
    Ok(())
}

fn print_reservations(rt: &HostRuntime, list: &[Reservation]) -> anyhow::Result<()> {
    for Reservation {
        activity,
        ticks,
        period,
    } in list {
        println!(rt; "activity {activity} has {ticks} ticks in every {period}")?;
    }
    println!(rt; "every window is served")?;
    Ok(())
}

fn print_refusal(rt: &HostRuntime, fault: &SheetFault) -> anyhow::Result<()> {
    let number = fault.number().context("no memory for the plan")?;
    let layer = fault.layer();
    let place = fault.place();
    println!(rt; "{layer} {number} {place}")?;
    println!(rt; "refused by {fault}")?;
    Ok(())
}

fn run(rt: &HostRuntime) -> anyhow::Result<()> {
    let bytes = fs::read(rt, "plan.bin")?;
    let mut plan = Plan::empty(rt.alloc());
    let mut list = [Reservation::default(); 16];
    match load(bytes.as_slice(), &mut plan, &mut list) {
        Ok(count) => {
            println!(rt; "ok {count}")?;
            print_plan(rt, &plan)?;
            print_bars(rt, &plan)?;
            print_reservations(rt, &list[0..count])
        }
        Err(fault) => print_refusal(rt, &fault),
    }
}

fn main(rt: HostRuntime) -> anyhow::Result<()> {
    run(&rt)
}
