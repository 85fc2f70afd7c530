//! How long solving a plan takes, in whole and in parts.
//!
//! Without arguments the weights of a small made plan and the size of its report are printed, which are always the same.
//! `rates FILE` prints the rates of a plan's chain. `rows FILE WORKERS`, `solve FILE WORKERS` and `parts FILE WORKERS`
//! write nanoseconds to standard error: of the changes of rows, of the weights, and of reading, weighing, measuring and
//! writing. `certificate FILE` writes those of all measures by elimination and by a certificate, and whether there is one.
#![tactic(auto)]

ghost use Rattle.std.specs.Prelude.{◌≤◌, IfOk};

use hyper_model::Plan;
use plan_maker::make;
use plan_reader::read_plan;
use rate_matrix::WordChain;
use refusal::TimesRefusal;
use std::rt::Files;
use std::thread::Threads;
use std::time::Clock;
use std::{env, fs};

mod measuring;
mod methods;
mod orders;
mod parts;
mod rates;
mod refusal;
mod rows;
mod solving;

fn main(rt: HostRuntime) -> Result<(), TimesRefusal> {
    let mut arguments = Vec::new(rt.alloc());
    for argument in env::args(&rt)?.skip(1) {
        arguments.push(argument)?;
    }
    run(&rt, &arguments)
}

fn run<R: Print + Eprint + Files + Clock + Threads + Sync + AllocGlobal>(
    rt: &R,
    arguments: &[String],
) -> Result<(), TimesRefusal> {
    match arguments {
        [] => print_small(rt),
        [task, file] => try_plan(rt, task.as_str(), &read(rt, file.as_str())?),
        [task, file, workers] => {
            let workers = workers_of(workers.as_str())?;
            measure(rt, task.as_str(), file.as_str(), workers)
        }
        _ => Err(TimesRefusal::UnknownArguments),
    }
}

fn read(rt: &(impl Files + AllocGlobal), file: &str) -> Result<Plan, TimesRefusal> {
    let text = fs::read(rt, file)?;
    Ok(read_plan(rt.alloc(), text.as_slice())?)
}

fn workers_of(argument: &str) -> Result<u32, TimesRefusal>
    ensures { IfOk result (λ workers. (1 ≤ workers) × (workers ≤ 16)) }
{
    let workers = argument.parse::<u32>()?;
    if workers == 0 || workers > 16 {
        return Err(TimesRefusal::WorkerRange);
    }
    Ok(workers)
}

// The report is the same for any number of workers.
fn print_small<R: Print + Clock + Threads + Sync + AllocGlobal>(
    rt: &R,
) -> Result<(), TimesRefusal> {
    let text = make(rt.alloc(), 4, 0)?;
    print_weights(rt, &read_plan(rt.alloc(), text.as_slice())?)?;
    let (report, _) = parts::solve(rt, rt.alloc(), &text, 2)?;
    println!(rt; "{} bytes", report.len())?;
    Ok(())
}

// Two workers change the rows, and one finds the weights.
fn print_weights<R: Print + Clock + Threads + Sync + AllocGlobal>(
    rt: &R,
    plan: &Plan,
) -> Result<(), TimesRefusal> {
    let order = orders::order_of(rt.alloc(), plan)?;
    let chain = WordChain::of(plan, &order);
    let (updates, _) = rows::time_rows(rt, rt.alloc(), &chain, 2)?;
    println!(rt; "changed,{}", updates.changed)?;
    let (weights, _) = solving::solve(rt, rt.alloc(), &chain, 1)?;
    solving::print_weights(rt, &weights)?;
    Ok(())
}

fn try_plan<R: Print + Eprint + Clock + AllocGlobal>(
    rt: &R,
    task: &str,
    plan: &Plan,
) -> Result<(), TimesRefusal> {
    if task == "certificate" {
        measure_methods(rt, plan)
    } else {
        print_rates(rt, plan)
    }
}

fn measure_methods<R: Eprint + Clock + AllocGlobal>(
    rt: &R,
    plan: &Plan,
) -> Result<(), TimesRefusal> {
    let times = methods::time_methods(rt, rt.alloc(), plan)?;
    let (elimination, certificate) = (times.elimination, times.certificate);
    eprintln!(rt; "{elimination} {certificate} {}", times.is_certified)?;
    Ok(())
}

fn print_rates(rt: &(impl Print + AllocGlobal), plan: &Plan) -> Result<(), TimesRefusal> {
    let order = orders::order_of(rt.alloc(), plan)?;
    rates::print_chain(rt, &WordChain::of(plan, &order))?;
    Ok(())
}

fn measure<R: Eprint + Files + Clock + Threads + Sync + AllocGlobal>(
    rt: &R,
    task: &str,
    file: &str,
    workers: u32,
) -> Result<(), TimesRefusal>
    requires some { 1 ≤ workers }
    requires most { workers ≤ 16 }
{
    if task == "parts" {
        measure_parts(rt, &fs::read(rt, file)?, workers)
    } else {
        measure_chain(rt, task, &read(rt, file)?, workers)
    }
}

fn measure_chain<R: Eprint + Clock + Threads + Sync + AllocGlobal>(
    rt: &R,
    task: &str,
    plan: &Plan,
    workers: u32,
) -> Result<(), TimesRefusal>
    requires some { 1 ≤ workers }
    requires most { workers ≤ 16 }
{
    let order = orders::order_of(rt.alloc(), plan)?;
    let chain = WordChain::of(plan, &order);
    if task == "rows" {
        let (updates, left) = rows::time_rows(rt, rt.alloc(), &chain, workers)?;
        let (changed, nanoseconds) = (updates.changed, updates.nanoseconds);
        eprintln!(rt; "{changed} {nanoseconds} {} {}", left.lo(), left.hi())?;
    } else {
        let (weights, solving) = solving::solve(rt, rt.alloc(), &chain, workers)?;
        let (elimination, substitution) = (solving.elimination, solving.substitution);
        eprintln!(rt; "{elimination} {substitution} {}", weights.len())?;
    }
    Ok(())
}

fn measure_parts<R: Eprint + Clock + Threads + Sync + AllocGlobal>(
    rt: &R,
    text: &[u8],
    workers: u32,
) -> Result<(), TimesRefusal>
    requires some { 1 ≤ workers }
    requires most { workers ≤ 16 }
{
    let (report, parts) = parts::solve(rt, rt.alloc(), text, workers)?;
    let (reading, weighing) = (parts.reading, parts.weighing);
    let (measuring, writing) = (parts.measuring, parts.writing);
    eprintln!(rt;
        "{reading} {weighing} {measuring} {writing} {}",
        report.len()
    )?;
    Ok(())
}
