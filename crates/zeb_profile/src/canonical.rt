//! The canonical text of a profile, written line by line.

ghost use Rattle.std.specs.Prelude.{◌≡◌, ◌++◌, IfOk, OnOk, string_bytes};
ghost use Rattle.zeb_profile.specs.Clauses.{canonical_line, canonical_text, target_text, targets_text, directives_in};

use crate::UnitPattern;
use crate::directives::{Directive, Placed, Target};
use std::alloc::{AllocError, Global};

/// The canonical text of a profile's lines.
pub(crate) fn canonical(alloc: Global, placed: &[Placed]) -> Result<String, AllocError>
    ensures { IfOk result (λ text. string_bytes text ≡ canonical_text (directives_in placed.now)) }
{
    let mut text = String::new(alloc);
    for line in placed {
        push_line(&mut text, &line.directive)?;
    }
    Ok(text)
}

fn push_line(text: &mut String, directive: &Directive) -> Result<(), AllocError>
    ensures { OnOk result (string_bytes text.new
        ≡ string_bytes text.old ++ canonical_line directive.now) }
{
    match directive {
        Directive::Store(_) => Ok(()),
        Directive::Identifier(pattern) => writeln!(text, "identifier {pattern}"),
        Directive::Att(number, name) => {
            let name = name.as_str();
            writeln!(text, "att {number} {name}")
        }
        Directive::Melm(pattern, targets) => {
            write!(text, "melm {pattern} ")?;
            push_targets(text, targets.as_slice())?;
            text.push_str("\n")
        }
        Directive::All(targets) => {
            text.push_str("all ")?;
            push_targets(text, targets.as_slice())?;
            text.push_str("\n")
        }
    }
}

fn push_targets(text: &mut String, targets: &[Target]) -> Result<(), AllocError>
    ensures { OnOk result (string_bytes text.new
        ≡ string_bytes text.old ++ targets_text targets.now) }
{
    match targets.split_first() {
        None => Ok(()),
        Some((first, others)) => {
            push_target(text, first)?;
            for target in others {
                text.push_str(",")?;
                push_target(text, target)?;
            }
            Ok(())
        }
    }
}

fn push_target(text: &mut String, target: &Target) -> Result<(), AllocError>
    ensures { OnOk result (string_bytes text.new
        ≡ string_bytes text.old ++ target_text target.now) }
{
    let name = target.name.as_str();
    let register = target.register;
    write!(text, "{name}:{register}")
}
