// Shows what becomes of releases where two arrival rules are joined, and that joined curves need not be subadditive.
#![tactic(auto)]

ghost use Rattle.std.specs.Prelude.{IfOk};
ghost use Rattle.tasks.specs.Arrivals.{AllSubadditive};
ghost use Rattle.rules.specs.Buckets.{bucket_curve};
ghost use Rattle.rules.specs.Joins.{joined};
ghost use Rattle.rules.specs.Spacing.{spaced_curve};

mod paired;

use crate::paired::Paired;
use crate::paired::rule::free_pairs;
use rules::both::Both;
use rules::bucket::Bucket;
use rules::spaced::Spaced;
use std::io;
use tasks::arrival::ArrivalRule;
use tasks::fault::SetFault;
use tasks::set::TaskSet;

// The ticks in which a release is asked for, in their order.
const ASKED: [u32; 5] = [0, 10, 20, 99, 100];

// Task 0 spaced by `period` ticks.
fn spaced(period: u32) -> Result<Spaced, SetFault> {
    let set = TaskSet::new(&[period], &[1])?;
    Ok(Spaced::new(&set))
}

// Task 0 spaced by 10 ticks, and a bucket of 2 tokens that return every 100 ticks. Its curves are subadditive.
fn spaced_tokens() -> Result<Both<Spaced, Bucket>, SetFault>
    ensures { IfOk result (λ rule. AllSubadditive (joined (spaced_curve rule.first) (bucket_curve rule.second))) }
{
    let bucket = Bucket::new(&[2], &[100])?;
    Ok(Both::join(spaced(10)?, bucket))
}

// Task 0 spaced by 3 ticks, and releases in pairs.
fn spaced_pairs() -> Result<Both<Spaced, Paired>, SetFault> {
    Ok(Both::new(spaced(3)?, free_pairs()))
}

// Asks the rule for a release of task 0 in each of those ticks, and says what became of it.
fn show_releases<R: ArrivalRule, P: Print>(rt: &P, rule: &mut R) -> io::Result<()> {
    let mut now = 0;
    for tick in ASKED {
        // the ticks in between pass, one call each
        for _ in now..tick {
            rule.advance();
        }
        now = tick;
        let answer = if rule.admit(0).is_ok() {
            "taken"
        } else {
            "refused"
        };
        println!(rt; "{answer} at {tick}")?;
    }
    Ok(())
}

// The curve of task 0 at two lengths and at their sum.
fn show_curve<R: ArrivalRule, P: Print>(rt: &P, rule: &R) -> io::Result<()> {
    let a = rule.curve_at(0, 3);
    let b = rule.curve_at(0, 7);
    let sum = rule.curve_at(0, 10);
    println!(rt; "curve: {a} in 3, {b} in 7, {sum} in 10")
}

fn main(rt: HostRuntime) -> io::Result<()> {
    match spaced_tokens() {
        Ok(mut rule) => show_releases(&rt, &mut rule)?,
        Err(fault) => println!(rt; "{fault}")?,
    }
    match spaced_pairs() {
        Ok(rule) => show_curve(&rt, &rule),
        Err(fault) => println!(rt; "{fault}"),
    }
}
