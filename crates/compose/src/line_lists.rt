// Lists of lines.
ghost use Rattle.std.specs.Prelude.{◌≡◌, ◌++◌, IfOk, OnOk};
ghost use Rattle.sum_ops.specs.Children.{on_list};
ghost use Rattle.compose.specs.Arrangements.{lines_on};

use crate::OrderList;
use cmr_base::{ItemList, Memory};
use std::alloc::Global;

/// Gives the lines that are on a list, or, without `inside`, the lines that are not.
pub fn lines_on(
    alloc: Global,
    inside: bool,
    list: &[u32],
    lines: &[u32],
) -> Result<OrderList, Memory>
    ensures { IfOk result (λ chosen. chosen ≡ lines_on inside list.now lines.now) }
{
    let mut chosen = ItemList::new(alloc);
    for line in lines {
        if is_on(inside, list, *line) {
            chosen.push(*line)?;
        }
    }
    Ok(chosen)
}

fn is_on(inside: bool, list: &[u32], line: u32) -> bool
    ensures { result ≡ on_list inside list.now line }
{
    if inside {
        list.contains(&line)
    } else {
        !list.contains(&line)
    }
}

/// Joins two lists.
pub fn joined(alloc: Global, first: &[u32], second: &[u32]) -> Result<OrderList, Memory>
    ensures { IfOk result (λ list. list ≡ first.now ++ second.now) }
{
    let mut list = ItemList::new(alloc);
    push_all(&mut list, first)?;
    push_all(&mut list, second)?;
    Ok(list)
}

/// Joins three lists.
pub fn joined_three(
    alloc: Global,
    first: &[u32],
    second: &[u32],
    third: &[u32],
) -> Result<OrderList, Memory>
    ensures { IfOk result (λ list. list ≡ first.now ++ (second.now ++ third.now)) }
{
    let mut list = ItemList::new(alloc);
    push_all(&mut list, first)?;
    push_all(&mut list, second)?;
    push_all(&mut list, third)?;
    Ok(list)
}

fn push_all(list: &mut OrderList, lines: &[u32]) -> Result<(), Memory>
    ensures { OnOk result (list.new ≡ list.old ++ lines.now) }
{
    for line in lines {
        list.push(*line)?;
    }
    Ok(())
}
