// What was read, and what each restriction made of the grammar, in words for a person.
use crate::rule::Rule;
use narrowing::narrowed::Narrowed;
use reports::grammar::Grammar;
use reports::words::{put_bar, put_read, put_size};
use std::alloc::{AllocError, Global};

fn put_rule(out: &mut String, rule: Rule) -> Result<(), AllocError> {
    match rule {
        Rule::Whole => out.push_str("no restriction\n"),
        Rule::Levels => out.push_str("ladder\n"),
        Rule::Bars(bar) => put_bar(out, bar),
    }
}

fn put_step(out: &mut String, step: Narrowed) -> Result<(), AllocError> {
    put_size(out, "product", step.whole)?;
    put_size(out, "trimmed", step.trimmed)?;
    put_size(out, "merged", step.merged)?;
    if step.barren {
        out.push_str("  warning: nothing is accepted from the root any more\n")?;
    }
    Ok(())
}

pub(crate) fn report(
    heap: Global,
    grammar: &Grammar<'_>,
    steps: &[(Rule, Narrowed)],
) -> Result<String, AllocError> {
    let mut out = String::new(heap);
    put_read(&mut out, grammar)?;
    for (rule, step) in steps {
        put_rule(&mut out, *rule)?;
        put_step(&mut out, *step)?;
    }
    Ok(out)
}
