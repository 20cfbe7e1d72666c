// The names of procedures.
ghost use Rattle.std.specs.Prelude.{◌≡◌, ◌||◌, IfOk, IfErr};
ghost use Rattle.arc_base.specs.declared.place.Stop.TheVariants as Stop;
ghost use Rattle.indent_scanner.specs.Meaning.{inner};
ghost use Rattle.decl_rules.specs.Heads.{quoted_name, procedure_name, is_dollar, is_comparison};

use arc_base::{Bytes, Stop};
use decl_parts::heads::{is_comparison, is_dollar};
use indent_scanner::normal_form;
use nim_tree::Declared;
use std::alloc::Global;

// What stands between backticks.
fn inside(text: &[u8]) -> &[u8]
    ensures { result.now ≡ inner text.now }
{
    if text.len() > 2 {
        &text[1..text.len() - 1]
    } else {
        &[]
    }
}

fn is_operation(sign: &[u8]) -> bool
    ensures { (is_dollar sign.now || is_comparison sign.now) ≡ result }
{
    is_dollar(sign) || is_comparison(sign)
}

// An operation by its sign; what else stands in backticks is no name.
fn quoted_name(name: &Declared) -> &[u8]
    ensures { result.now ≡ quoted_name name.now }
{
    let text = name.text.as_slice();
    let sign = inside(text);
    if is_operation(sign) {
        return sign;
    }
    text
}

/// The name of a procedure in normal form; in backticks, the sign of an operation.
pub fn procedure_name(alloc: Global, name: &Declared) -> Result<Bytes, Stop>
    ensures name { IfOk result (λ x. x ≡ procedure_name name.now) }
    ensures memory { IfErr result (λ stop. stop ≡ Stop.Memory) }
{
    if name.quoted {
        let sign = Bytes::from_slice(alloc, quoted_name(name))?;
        return Ok(sign);
    }
    let word = normal_form(alloc, name.text.as_slice())?;
    Ok(word)
}
