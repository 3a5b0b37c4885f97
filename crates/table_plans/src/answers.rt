//! The answers to rows.

use crate::steps::put_steps;
use ba_resend::Plan;
use std::alloc::{AllocError, Global};

/// The answer to a row.
pub fn answer(alloc: Global, row: &str) -> Result<String, AllocError> {
    let mut out = String::new(alloc);
    match row.split_once(": ") {
        None => out.push_str("no row")?,
        Some((made, steps)) => match plan_of(alloc, made) {
            None => out.push_str("no plan")?,
            Some(mut plan) => put_steps(&mut plan, steps, &mut out)?,
        },
    }
    Ok(out)
}

/// The plan that a row makes.
fn plan_of(alloc: Global, made: &str) -> Option<Plan> {
    let (node, rest) = made.strip_prefix("plan ")?.split_once(' ')?;
    let (senders, last) = rest.split_once(' ')?;
    let node = node.parse::<u32>().ok()?;
    let senders = senders.parse::<usize>().ok()?;
    let last = last.parse::<u64>().ok()?;
    if senders == 0 {
        return None;
    }
    let mut plan = Plan::new(alloc, node, senders).ok()?;
    plan.reserve(last).ok()?;
    Some(plan)
}
