ghost use Rattle.std.specs.Prelude.{◌<◌};

use rate_matrix::Chain;
use std::io;

/// Prints how many states a chain has, the bound on the rates out of each, and the rates that are not 0.
pub(crate) fn print_chain<C: Chain>(rt: &impl Print, chain: &C) -> io::Result<()> {
    println!(rt; "{} {}", chain.size(), chain.top())?;
    for from in 0..chain.size() {
        print_row(rt, chain, from)?;
    }
    Ok(())
}

fn print_row<C: Chain>(rt: &impl Print, chain: &C, from: usize) -> io::Result<()>
    requires { from < C.states chain.now }
{
    for to in 0..chain.size() {
        if from != to {
            print_rate(rt, from, to, chain.rate(from, to))?;
        }
    }
    Ok(())
}

fn print_rate(rt: &impl Print, from: usize, to: usize, rate: u64) -> io::Result<()> {
    if rate != 0 {
        println!(rt; "{from} {to} {rate}")?;
    }
    Ok(())
}
