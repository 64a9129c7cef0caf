//! A step as a line of a script.

ghost use Rattle.std.specs.Prelude.{◌≡◌, [], OnErr, IfOk, string_bytes};
ghost use Rattle.grammar.specs.declared.line.Language.TheVariants.{Script};
ghost use Rattle.grammar.specs.declared.line.Line.TheVariants.{Do};
ghost use Rattle.grammar.specs.Fits.{CanBeSpelled};
ghost use Rattle.grammar.specs.Lines.{IsLine};
ghost use Rattle.grammar.specs.Orders.{HasStep, order_of};

use grammar::{Order, print_order};
use mig_base::NoMemory;
use mig_base::schedule::Step;

/// Replaces a text by the line of a step, without a line feed, and returns the order of that line. A push names its epoch, so that the line
/// means the same step in each world. It is read as that order, if any line is: see [`print_order`]. `NoMemory` leaves the text empty.
pub fn spell(step: Step, text: &mut String) -> Result<Order, NoMemory>
    ensures order { IfOk result (λ order. order ≡ order_of step) }
    ensures step { IfOk result (λ order. HasStep order step) }
    ensures line { IfOk result (λ order. CanBeSpelled order
        → IsLine Script (string_bytes text.new) (Do order)) }
    ensures err { OnErr result (string_bytes text.new ≡ []) }
{
    let order = Order::of(step);
    print_order(text, order)?;
    Ok(order)
}
