//! Reads texts of networks, numbers, certificates, scripts and lists, and writes what they say.
//!
//! Words, in any number:
//! - `rows FILE`: the rows of a network text, or its refusal; `cuts FILE`: the same for each cut of it;
//! - `nested N`: a network text with a skipped section of N nested groups; `time FILE`: how long reading takes;
//! - `number WORD`, `units DECIMALS:WORD`: a number in millionths, and in units;
//! - `script NET CERT SCRIPT`: what a script shows of a certificate;
//! - `list NET LIST`: the matrices of a list, or its refusal; `listtime NET LIST`: how long reading it takes;
//! - `LINKS-MODULES FILE`, as `undirected-largest net`: the network of a text in units.
#![tactic(auto)]

mod files;
mod lists;
mod rows;
mod scripts;
mod texts;
mod units;

use anyhow::{Context, Result};
use lists::{tell_list, tell_list_time};
use rows::{tell_cuts, tell_nested, tell_rows, tell_time};
use scripts::tell_script;
use std::env;
use units::{tell_net, tell_number, tell_units};

fn main(rt: HostRuntime) -> Result<()> {
    let mut args = env::args(&rt)?;
    args.next();
    for _ in 0..10_000u32 {
        let command = match args.next() {
            Some(word) => word,
            None => break,
        };
        let what = args.next().context("a word behind the command")?;
        match command.as_str() {
            "rows" => tell_rows(&rt, what.as_str())?,
            "cuts" => tell_cuts(&rt, what.as_str())?,
            "nested" => tell_nested(&rt, what.as_str())?,
            "time" => tell_time(&rt, what.as_str())?,
            "number" => tell_number(&rt, what.as_str())?,
            "units" => tell_units(&rt, what.as_str())?,
            "script" => {
                let cert = args.next().context("CERT")?;
                let script = args.next().context("SCRIPT")?;
                tell_script(&rt, what.as_str(), cert.as_str(), script.as_str())?;
            }
            "list" => {
                let list = args.next().context("LIST")?;
                tell_list(&rt, what.as_str(), list.as_str())?;
            }
            "listtime" => {
                let list = args.next().context("LIST")?;
                tell_list_time(&rt, what.as_str(), list.as_str())?;
            }
            options => tell_net(&rt, options, what.as_str())?,
        }
    }
    Ok(())
}
