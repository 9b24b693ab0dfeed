// The line on a tree that breaks a rule.
ghost use Rattle.std.specs.Prelude.{◌≡◌, ◌+◌, ◌++◌, OnOk};
ghost use Rattle.std.specs.Fmt.{decimal};
ghost use Rattle.cmr_front.specs.Refusals.{dotted, node_name, refusal_line, rule_name};

use cmr_base::{Memory, PathList};
use itoa::Buffer;
use tree_type::Rule;

/// Appends the line: `refused: PATH RULE`.
pub fn push_refusal_line(text: &mut Vec<u8>, path: &PathList, rule: Rule) -> Result<(), Memory>
    ensures { OnOk result (text.new.items ≡ text.old.items ++ refusal_line path.now rule) }
{
    text.extend_from_slice(b"refused: ")?;
    push_node_name(text, path)?;
    text.push(b' ')?;
    text.extend_from_slice(rule_name(rule))?;
    text.push(b'\n')?;
    Ok(())
}

fn push_node_name(text: &mut Vec<u8>, path: &PathList) -> Result<(), Memory>
    ensures { OnOk result (text.new.items ≡ text.old.items ++ node_name path.now) }
{
    match path.as_slice().split_first() {
        None => {
            text.extend_from_slice(b"root")?;
            Ok(())
        }
        Some((child, rest)) => {
            push_child_number(text, *child)?;
            push_dotted(text, rest)
        }
    }
}

fn push_dotted(text: &mut Vec<u8>, path: &[u32]) -> Result<(), Memory>
    ensures { OnOk result (text.new.items ≡ text.old.items ++ dotted path.now) }
{
    for child in path {
        text.push(b'.')?;
        push_child_number(text, *child)?;
    }
    Ok(())
}

// The number of a child, counted from 1.
fn push_child_number(text: &mut Vec<u8>, child: u32) -> Result<(), Memory>
    ensures { OnOk result (text.new.items ≡ text.old.items ++ decimal (child + 1)) }
{
    let mut buffer = Buffer::new();
    text.extend_from_slice(buffer.format(u64::from(child) + 1).as_bytes())?;
    Ok(())
}

fn rule_name(rule: Rule) -> &'static [u8]
    ensures { result.now ≡ rule_name rule }
{
    match rule {
        Rule::Size => b"Size",
        Rule::Lines => b"Lines",
        Rule::NotEmpty => b"NotEmpty",
        Rule::NotViolator => b"NotViolator",
        Rule::NotReducible => b"NotReducible",
        Rule::NotApart => b"NotApart",
        Rule::NotNetwork => b"NotNetwork",
        Rule::NotR10 => b"NotR10",
        Rule::CycleFault => b"CycleFault",
        Rule::TooShort => b"TooShort",
        Rule::BadConnector => b"BadConnector",
        Rule::CornerSign => b"CornerSign",
        Rule::BadBlock => b"BadBlock",
        Rule::TooMany => b"TooMany",
        Rule::NotClean => b"NotClean",
        Rule::NotPivot => b"NotPivot",
        Rule::BelowPivot => b"BelowPivot",
    }
}
