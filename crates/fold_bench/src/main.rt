//! Forms expressions again and again, for the benchmark of operations on expressions. The word is what is formed:
//! `sums`, `products` or `small`, and `none` forms nothing. It prints `formed`, or `refused` where an expression is
//! refused.
#![tactic(auto)]

mod formed;

use formed::{products, small, sums};
use scev_calculator::CalculatorError;
use scev_outside::{StdSink, write_all};
use std::alloc::Global;
use std::env;
use std::process::ExitCode;
use std::rt::Env;

/// How many expressions were formed; None where the word asks for none of them.
fn formed_by(alloc: Global, word: &str) -> Option<Result<u64, CalculatorError>> {
    match word.as_bytes() {
        b"sums" => Some(sums(alloc)),
        b"products" => Some(products(alloc)),
        b"small" => Some(small(alloc)),
        b"none" => Some(Ok(0)),
        _ => None,
    }
}

/// The first word after the program's name, and what it asks for.
fn measured(rt: &(impl Env + AllocGlobal)) -> Option<Result<u64, CalculatorError>> {
    let word = env::args(rt).ok()?.nth(1)?;
    formed_by(rt.alloc(), &word)
}

fn main(rt: HostRuntime) -> ExitCode {
    let line: &[u8] = match measured(&rt) {
        Some(Ok(_)) => b"formed\n",
        Some(Err(_)) => b"refused\n",
        None => b"sums, products, small or none\n",
    };
    let mut out = StdSink::new(rt.stdout());
    match write_all(&mut out, line) {
        Ok(()) => ExitCode::SUCCESS,
        Err(_) => ExitCode::FAILURE,
    }
}
