ghost use Rattle.std.specs.Prelude.{◌≡◌, ◌++◌, IfOk};
ghost use Rattle.std.specs.List.{flat_map};
ghost use Rattle.hypercube_cli.specs.Lines.{argument_field, refusal_line};

use crate::Refusal;
use std::alloc::{AllocError, Global};
use text_lines::push_number_field;

/// The line that reports a refusal.
pub(crate) fn refusal_text(alloc: Global, refusal: Refusal) -> Result<Vec<u8>, AllocError>
    ensures { IfOk result (λ text. text.items ≡ refusal_line refusal) }
{
    let fields = refusal.fields();
    let mut text = Vec::from_slice(alloc, b"refused")?;
    push_number_field(&mut text, u64::from(fields.place))?;
    push_number_field(&mut text, u64::from(fields.code.number))?;
    push_arguments(&mut text, &fields.code.arguments)?;
    text.push(b'\n')?;
    Ok(text)
}

fn push_arguments(text: &mut Vec<u8>, arguments: &[Option<u64>]) -> Result<(), AllocError>
    ensures { IfOk result (λ _. text.new.items ≡ text.old.items ++ flat_map argument_field arguments.now) }
{
    for argument in arguments {
        if let Some(number) = argument {
            push_number_field(text, *number)?;
        }
    }
    Ok(())
}
