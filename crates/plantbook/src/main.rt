//! `plantbook FILE..` prints the month's account of one meter from each file; with no file, from standard input.
#![tactic(auto)]

use account::month::{Month, read_month};
use account::rows::{Account, Row};
use quantity::Quantity;
use quantity::totaliser::Totaliser;
use std::alloc::Global;
use std::error::Error;
use std::fmt::Display;
use std::process::ExitCode;
use std::rt::{Env, Files};
use std::{env, fs, io};

// A line for each day, with the running total, and one for the month.
fn print_account<Q: Quantity + Display>(rt: &impl Print, account: &Account<Q>) -> io::Result<()> {
    for row in &account.rows {
        println!(rt; "day {}: {}, total {}", row.day, row.amount, row.total)?;
    }
    println!(rt; "month: {}", account.total)
}

// The days on which the counter rolled over.
fn print_roll_overs(rt: &impl Print, rows: &[Row<Totaliser>]) -> io::Result<()> {
    print!(rt; "rolled over on day:")?;
    for row in rows.iter().filter(|row| row.rolled_over()) {
        print!(rt; " {}", row.day)?;
    }
    if !rows.iter().any(|row| row.rolled_over()) {
        print!(rt; " none")?;
    }
    println!(rt)
}

fn print_month(rt: &(impl Alloc<A = Global> + Print), month: Month) -> io::Result<()> {
    match month {
        Month::Advances(entries) => {
            let account = Account::new(rt.alloc(), &entries)?;
            print_account(rt, &account)?;
            print_roll_overs(rt, &account.rows)
        }
        Month::Masses(entries) => { print_account(rt, &Account::of_masses(rt.alloc(), &entries)?) }
    }
}

// What was read of the input with this name. If it is an error, that is first said on standard error.
fn reported<T: Drop, E: Error>(
    rt: &impl Eprint,
    name: &str,
    read: Result<T, E>,
) -> anyhow::Result<T> {
    if let Err(error) = &read {
        eprintln!(rt; "plantbook: {name}: {error}")?;
    }
    Ok(read?)
}

// Prints the account that the text gives, under its name.
fn run(
    rt: &(impl Alloc<A = Global> + Print + Eprint),
    name: &str,
    text: io::Result<String>,
) -> anyhow::Result<()> {
    let text = reported(rt, name, text)?;
    let lines: Vec<&str> = text.lines().collect(rt.alloc())?;
    let month = reported(rt, name, read_month(rt.alloc(), &lines))?;
    println!(rt; "{name}")?;
    print_month(rt, month)?;
    Ok(())
}

fn run_inputs(
    rt: &(impl Alloc<A = Global> + Print + Eprint + Input + Env + Files),
) -> anyhow::Result<()> {
    let paths: Vec<String> = env::args(rt)?.skip(1).collect(rt.alloc())?;
    if paths.is_empty() {
        let text = io::read_to_string(rt.alloc(), rt.reader());
        return run(rt, "standard input", text);
    }
    for path in &paths {
        run(rt, path, fs::read_to_string(rt, path))?;
    }
    Ok(())
}

// An error ends the program with status 1. What there is to say of it is on standard error by then, and nothing is added.
fn main(rt: HostRuntime) -> ExitCode {
    match run_inputs(&rt) {
        Ok(()) => ExitCode::SUCCESS,
        Err(_) => ExitCode::FAILURE,
    }
}
