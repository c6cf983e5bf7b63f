//! The printed text of a module.

ghost use Rattle.std.specs.Prelude.{◌≡◌, IfOk};
ghost use Rattle.ir_grammar.specs.Printing.{module_text};
ghost use Rattle.ir_model.specs.WellMade.{HaveIds};

use crate::items::push_item;
use ir_model::Module;
use std::alloc::{AllocError, Global};

/// The text of the module, a line for each item, label and instruction. The ids of its functions stand in their
/// tables.
///
/// Time linear in the module and its text.
#[tactic(auto, unfolding(ir_grammar::specs::Printing::module_text, ir_model::specs::WellMade::HaveIds))]
pub fn print_module(alloc: Global, m: &Module) -> Result<Vec<u8>, AllocError>
    requires { HaveIds m.now }
    ensures { IfOk result (λ text. text.items ≡ module_text m.now) }
{
    let globals = m.globals.as_slice();
    let mut text = Vec::new(alloc);
    for item in m.items.as_slice() {
        push_item(alloc, &mut text, globals, item)?;
    }
    Ok(text)
}
